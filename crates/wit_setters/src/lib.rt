//! Setters of an interface or of a side of a world, put after their getters.
#![tactic(auto)]

pub mod interface_setters;
mod paired;
pub mod side_setters;
