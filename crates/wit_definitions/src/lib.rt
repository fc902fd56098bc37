//! Definitions as entries of the arena of types.
#![tactic(auto)]

pub mod bodies;
pub mod definitions;
