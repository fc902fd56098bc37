//! Packages and refusals as JSON.
//!
//! The JSON has the form in which `serde` writes the types of `wit-parser`, and also the members that this
//! leaves out: spans, and all fields of an unresolved package.
#![tactic(auto)]

mod functions;
pub mod group;
mod interfaces;
mod kinds;
pub mod laws;
mod lists;
mod member_words;
mod members;
mod metadata;
mod output;
mod package;
pub mod refusal;
mod types;
mod worlds;

pub use group::group_json;
pub use refusal::{Place, refusal_json};
