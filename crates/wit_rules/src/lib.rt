//! The rules of definitions and of functions, as they are written.
#![tactic(auto)]

pub mod borrowed;
pub mod function_rules;
pub mod function_scope;
pub mod rules;
