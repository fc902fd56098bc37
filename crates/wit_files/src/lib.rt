//! The names of files, what their paths lead to, and the order of their items.
#![tactic(auto)]

pub mod file_names;
pub mod foreign;
mod item_table;
pub mod laws;
pub mod order_refusal;
mod tables;
pub mod visit;

pub use file_names::{FileNames, Found};
pub use foreign::ForeignVisit;
pub use visit::{Visit, Wanted, visits};
