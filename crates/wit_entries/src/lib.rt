//! Written types as entries of the arena of types.
#![tactic(auto)]

pub mod ends;
pub mod entries;
pub mod names;
pub mod scope;
mod settling;
pub mod types;
mod unnamed_table;
