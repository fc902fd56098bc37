//! Syntax trees of types and functions with borrowed names and spans, what trees of files share with them, and refusals.
#![tactic(auto)]

pub mod attribute_kind;
pub mod error;
pub mod leaves;
pub mod types;

pub use error::{OUT_OF_MEMORY, ParseError, ParseErrorKind, ParseResult};
