//! The program: from standard input to standard output.
#![tactic(auto)]

pub mod program;
pub mod status;

pub use program::run;
