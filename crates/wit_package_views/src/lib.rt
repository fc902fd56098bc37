//! Views of packages: of their docs, external ids, functions, layouts, spans and of what they name of others.
#![tactic(auto)]

pub mod docs;
pub mod external_ids;
pub mod foreign;
pub mod functions;
pub mod layouts;
pub mod parts;
mod slices;
pub mod spans;

pub use external_ids::read_marked;
