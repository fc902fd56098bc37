//! The listing of a package and of those that are nested in it, and the line of a refusal.
#![tactic(auto)]

pub mod fault;
mod foreign;
mod functions;
pub mod group;
mod interfaces;
mod kinds;
pub mod output;
mod package;
mod package_names;
pub mod refusal;
mod small_texts;
mod types;
mod worlds;

pub use fault::RunFault;
pub use group::listing;
pub use refusal::error_line;
