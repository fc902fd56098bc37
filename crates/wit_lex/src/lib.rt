//! Texts of WIT: the sources of a package, and their tokens.
#![tactic(auto)]

pub mod blank;
pub mod docs;
pub mod fault;
pub mod kind;
pub mod place;
pub mod scan;
pub mod source;
pub mod source_map;
pub mod token;
pub mod version;
pub mod version_end;
pub mod word;

pub use fault::{ReadError, ReadFault, ReadResult};
pub use place::Place;
pub use source::Source;
pub use source_map::{SourceMap, is_same_map};
