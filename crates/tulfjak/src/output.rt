//! Listings, JSON, and refusals as text.

/// Packages and refusals as JSON.
pub use wit_json::{Place, group_json, refusal_json};
/// The line of a refusal.
pub use wit_listing::{RunFault, error_line};
/// The JSON of an outcome.
pub use wit_outcome::outcome_json;
/// The listing of a group, and from sources or a text to what is written of them.
pub use wit_tool::{answer_text, listing, run};
