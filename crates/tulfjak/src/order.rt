//! Tables of names, each after those that it needs.

/// Tables of names: an `IndexMap`, or a [`Table`](crate::package::Table).
pub use wit_order::NameTable;
/// What holds of every table.
pub use wit_order::laws;
/// The least order in which each name comes after those that it needs, by any of three ways, and how many
/// steps one takes.
pub use wit_order::{Steps, order_steps, toposort, toposort_heap, toposort_scan};
