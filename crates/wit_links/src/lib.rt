//! What declared worlds include, import and export.
#![tactic(auto)]

pub mod includes;
pub mod inside;
pub mod links;
pub mod resolved;
