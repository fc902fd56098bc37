//! Reading a file, which turns it into its tree. Sources are re-exported from `wit_lex`.
#![tactic(auto)]

mod declaration;
mod extern_kind;
mod file;
mod package;
mod world;

pub use file::read_file;
pub use wit_lex::{ReadFault, Source, SourceMap, is_same_map};
