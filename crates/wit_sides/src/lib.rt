//! The names on both sides of a world.
#![tactic(auto)]

pub mod sides;

pub use sides::Sides;
