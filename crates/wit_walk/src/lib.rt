//! The first fault of files, in the order in which `resolve` looks for faults: it is one, and that of
//! a broken rule.
#![tactic(auto)]

pub mod laws;
