//! Tables of names, each with the names that it needs, and what an order of them is.
//!
//! Definitions and laws; `wit_order` finds the order.
#![tactic(auto)]

pub mod sorted;
pub mod table_fault;

pub use table_fault::OrderFault;
