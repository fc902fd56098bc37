//! Names of packages: their texts, and the tracks of their versions.
#![tactic(auto)]

pub mod package_name;
mod package_name_text;
mod package_name_track;

pub use package_name::PackageName;
