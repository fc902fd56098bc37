//! What comes before the arenas: other packages' interfaces and worlds, and the types used from them.
#![tactic(auto)]

pub mod foreign;
