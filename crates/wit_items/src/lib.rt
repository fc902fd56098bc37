//! Declared items, each with the names of its scope and what their paths lead to, what is stated of a
//! package and of an item, and the interfaces that are resolved.
#![tactic(auto)]

pub mod files;
pub mod header;
pub mod inline_names;
pub mod interfaces;
pub mod items;
pub mod metadata;
pub mod part_names;
pub mod resolved_path;
