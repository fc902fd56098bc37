//! Labels, mangled names, folded names, and tracks of versions.

/// Labels.
pub use wit_names::{LabelFault, validate_id};
/// The names of functions, with the marks of their kinds.
pub use wit_names::{Folded, getter_for_setter, is_mangled, is_setter};
/// Tracks of versions.
pub use wit_names::split_canonical;
