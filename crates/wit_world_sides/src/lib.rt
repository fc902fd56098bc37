//! What a world has on its sides.
#![tactic(auto)]

pub mod members;
pub mod sides;
pub mod sides_setters;
