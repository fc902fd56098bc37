//! The names at the top of files, and what paths lead to.
#![tactic(auto)]

pub mod declaration;
pub mod top_name;

pub use declaration::declarations;
pub use top_name::Target;
