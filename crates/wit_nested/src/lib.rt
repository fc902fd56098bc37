//! The resolver of a group: of the main package, and of the packages that are nested in its sources.
#![tactic(auto)]

pub mod laws;
mod nested;
mod package_names;
pub mod resolver;

pub use resolver::GroupResolver;
pub use wit_parser::{Resolver, laws as package_laws};
