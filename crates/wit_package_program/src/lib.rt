//! The program that writes the JSON of a package, from standard input to standard output.
#![tactic(auto)]

pub mod answering;
pub mod program;
pub mod status;

pub use answering::answer_text;
pub use program::run;
