//! The reader: it goes through the tokens of a source, and reads what is in items of every sort:
//! types, paths, versions, docs and attributes.
#![tactic(auto)]

pub mod attribute;
pub mod before_item;
mod handle;
pub mod holding;
pub mod list;
mod nesting;
mod primitive;
pub mod reader;
pub mod room;
pub mod types;
pub mod uses;
pub mod version;
