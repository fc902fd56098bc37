//! The items of other packages that files visit, as a package keeps them.
#![tactic(auto)]

pub mod package_items;
pub mod package_table;
pub mod packages;

pub use package_items::Items;
pub use package_table::foreign_deps;
pub use packages::Packages;
