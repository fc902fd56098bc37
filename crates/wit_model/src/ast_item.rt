//! The items of a file.

use wit_types::{InterfaceId, WorldId};

/// An interface or a world, as an entry of its arena.
#[derive(Debug, Clone, Copy, PartialEq, Eq)]
pub enum AstItem {
    Interface(InterfaceId),
    World(WorldId),
}
