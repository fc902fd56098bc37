//! From a text, or the sources of a package, to its listing, or the line of a refusal. Re-exports calls of
//! `wit_bundle` and `wit_listing`.
#![tactic(auto)]

pub mod answering;
pub mod running;

pub use answering::answer_text;
pub use running::{listing, run};
pub use wit_bundle::bundle;
pub use wit_listing::{RunFault, error_line};
