//! The first fault of a group, in the order in which `GroupResolver` looks for faults: it is one, and
//! something that is wrong with the group.
#![tactic(auto)]

pub mod laws;
