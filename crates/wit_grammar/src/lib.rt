//! The grammar of WIT as data: what a text spells, and how it is read by one token.
#![tactic(auto)]

pub mod laws;
