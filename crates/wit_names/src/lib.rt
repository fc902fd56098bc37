//! The names of WIT: labels, mangled names, folded names, and the tracks of versions.
//!
//! Nothing here knows of syntax trees or packages: every call takes a text or a version.
#![tactic(auto)]

pub mod folded;
pub mod label;
pub mod laws;
pub mod mangled;
pub mod prefix;
pub mod setter;
pub mod track;

pub use folded::Folded;
pub use label::{LabelFault, validate_id};
pub use mangled::is_mangled;
pub use setter::{getter_for_setter, is_setter};
pub use track::split_canonical;
