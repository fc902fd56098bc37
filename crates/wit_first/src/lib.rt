//! The first fault of attributes, of lists and of names that repeat, and that it is a broken rule.
#![tactic(auto)]

pub mod laws;
