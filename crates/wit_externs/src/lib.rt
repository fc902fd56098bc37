//! What is on the sides of a scope after its names of types: its functions, and the interfaces that a
//! world imports and exports by their paths alone.
#![tactic(auto)]

pub mod defining;
pub mod in_use;
pub mod links;
pub mod scope_functions;
