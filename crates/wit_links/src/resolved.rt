//! The interfaces and worlds that are resolved, of this package and of other ones.
ghost use Rattle.std.specs.Prelude.{◌≤◌, Some, length};
ghost use Rattle.wit_items.specs.ItemPaths.{AreFound};
ghost use Rattle.wit_items.specs.BorrowedItems.{others_of};

use wit_items::interfaces::Interfaces;
use wit_maps::TextTable;
use wit_model::World;
use wit_types::{Arena, WorldId, WorldPlace};

/// The interfaces and the worlds of files that are resolved, and the places of the declared ones by their
/// names: what is found by a name has that name, and is after those of other packages.
#[derive(Drop)]
pub struct Resolved<'f, 'a, 'n, 'e> {
    pub interfaces: Interfaces<'f, 'a, 'n, 'e>,
    /// The worlds of other packages come first in it.
    pub worlds: Arena<World, WorldPlace>,
    pub world_names: TextTable<WorldId>,
    pub ghost prefix: { length (others_of interfaces.files) ≤ length worlds },
    pub ghost found: { AreFound (λ w. Some w.name) (length (others_of interfaces.files)) worlds world_names },
}
