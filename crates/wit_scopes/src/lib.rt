//! The names of a scope, and the order of its definitions.
#![tactic(auto)]

mod by_place;
pub mod definition_order;
pub mod distinct;
pub mod scope_name;
mod written_names;
