//! The names of a scope, used ones and definitions, and its functions as entries of the arena of types.
#![tactic(auto)]

pub mod body;
pub mod functions;
pub mod names;
pub mod own_keys;
pub mod required;
pub mod uses;
