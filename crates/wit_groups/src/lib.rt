//! Groups: the package that files make, and the packages that are nested in these files.
#![tactic(auto)]

pub mod group;
pub mod laws;

pub use group::UnresolvedPackageGroup;
pub use wit_nested::{GroupResolver, Resolver, package_laws};
