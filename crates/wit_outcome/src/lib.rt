//! What sources come to: the group that they make, or their refusal in plain fields; and the JSON of either.
#![tactic(auto)]

pub mod outcome;
pub mod plain;
pub mod rendering;

pub use outcome::{Outcome, resolve, resolve_text};
pub use plain::Plain;
pub use rendering::outcome_json;
