//! The order in which the named items of a table can be defined.
//!
//! A table gives each name the names that it needs; a name's place is the index of its key.
//! [`order`] puts the names into the least order in which each comes after those that it needs,
//! or names the edge that forbids one. [`laws`] says what holds of every table.
#![tactic(auto)]

mod counting;
mod graph;
mod heap;
pub mod laws;
pub mod least_order;
mod name_places;
mod name_table;
mod order_refusal;
mod places;
mod ready;
mod turned;

pub use least_order::{order_places, order_steps, toposort, toposort_heap, toposort_scan};
pub use name_table::NameTable;
pub use ready::Steps;
pub use wit_graph::OrderFault;
