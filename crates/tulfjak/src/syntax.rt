//! The tree of a source.

/// Reading a source.
pub use wit_text::read_file;
/// Trees. Names such as `Type`, `Docs` and `PackageName` are here those of the syntax; [`package`] has the
/// resolved ones.
///
/// [`package`]: crate::package
pub use wit_tree::tree;
/// Refusals, of reading and of resolving.
pub use wit_type_tree::{ParseError, ParseErrorKind, ParseResult};
/// Getter or setter.
pub use wit_values::AccessorKind;
