//! Functions over the entries of the arena of types.
#![tactic(auto)]

pub mod functions;
mod signatures;
