//! Docs and attributes, names of packages, and what paths end in.
#![tactic(auto)]

pub mod attributes;
pub mod comments;
pub mod metadata;
pub mod package;
pub mod path_ends;

pub use attributes::{external_id, stability, stated_external_id, stated_stability};
pub use comments::docs;
pub use metadata::{Metadata, check_metadata, metadata_of, stated_metadata, use_metadata};
pub use package::package_name;
pub use path_ends::{is_same_side, path_id};
