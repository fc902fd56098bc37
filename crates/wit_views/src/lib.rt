//! Views of trees and of packages, which cases of `wit_rows` ask for: each writes what they say of one matter.
#![tactic(auto)]

pub mod packages;
pub mod reading;
pub mod trees;

pub use packages::{Found, rest_after, without_nested, write_packages};
pub use reading::read_view;
pub use trees::tree_view;
