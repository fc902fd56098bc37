//! The statuses that calls return.

/// The sources make packages.
pub(crate) const MADE: u8 = 0;

/// The sources are refused.
pub(crate) const REFUSED: u8 = 1;

/// The text is not UTF-8.
pub(crate) const NO_TEXT: u8 = 2;

/// An allocation failed outside the resolver.
pub(crate) const NO_MEMORY: u8 = 3;
