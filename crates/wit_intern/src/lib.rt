//! Tables that find unnamed types by what they are.
//!
//! A table keeps a finite map from keys to types, whichever way it holds them.
#![tactic(auto)]

pub mod key;
mod key_tables;
pub mod laws;
pub mod run;
pub mod type_table;

pub use key::InternKey;
pub use run::{InternReply, InternStep, intern_run};
pub use type_table::InternTable;
