//! Syntax trees of files with borrowed names and spans; those of types and functions, and refusals, it gives again.
#![tactic(auto)]

pub mod tree;

pub use wit_type_tree::{
    OUT_OF_MEMORY, ParseError, ParseErrorKind, ParseResult, attribute_kind, error, types,
};
pub use wit_values::{AccessorKind, Span, compare_spans, is_same_span};
