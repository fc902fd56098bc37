//! Texts with their paths, and places in them.

/// The sources of one text, and sources in the order in which they are read.
pub use wit_bundle::{bundle, by_path};
/// Sources, and where a span lies in them.
pub use wit_lex::{Place, Source, SourceMap, is_same_map};
/// Ranges of places.
pub use wit_values::{Span, compare_spans, is_same_span};
