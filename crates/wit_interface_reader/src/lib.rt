//! Reading what is in an interface: functions, definitions of types, and resources.
#![tactic(auto)]

pub mod definition;
pub mod func_words;
pub mod function;
pub mod in_braces;
pub mod resource;
