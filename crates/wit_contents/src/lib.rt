//! What the files of a package make: its interfaces and worlds, one after another, with what is in
//! them, its arenas, and what it names of other packages.
#![tactic(auto)]

pub mod contents;
pub mod declared;
pub mod interface;
pub mod items;
pub mod making;
pub mod sides;
pub mod walk;
pub mod world;
