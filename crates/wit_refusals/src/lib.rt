//! Refusals of a broken rule, and names that break one: those that are twice in a list, in a definition or in a scope.
#![tactic(auto)]

mod getters;
mod key_hashes;
pub mod name_scope;
pub mod refusal;
pub mod repeat_words;
pub mod repeats;
pub mod unique_names;

pub use name_scope::NameScope;
pub use unique_names::check_unique_names;
