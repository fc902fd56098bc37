//! Sources of one text, and sources in the order of their paths.
#![tactic(auto)]

pub mod apart;
mod bundles;
mod cutting;
mod path_order;

pub use bundles::bundle;
pub use path_order::by_path;
