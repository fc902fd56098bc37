//! The spans of a package's parts, which move together; those of whole packages are `unresolved`'s.

mod parts;
mod whole;

pub use wit_types::spans::HasSpans;
