//! Maps in insertion order, which contracts see as the list of their entries.
//!
//! A copy of each equals its source, and each gives back its entries without allocation.
#![tactic(auto)]

pub mod entries;
mod index;
mod index_maps;
mod slots;
pub mod sought;
pub mod table;
pub mod text_entries;
pub mod text_table;

pub use entries::{Entries, Keys, Values};
pub use sought::Sought;
pub use table::Table;
pub use text_entries::{TextEntries, TextKeys};
pub use text_table::TextTable;
