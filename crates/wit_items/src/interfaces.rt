//! The interfaces that are resolved, of this package and of other ones.
ghost use Rattle.std.specs.Prelude.{◌≤◌, length};
ghost use Rattle.wit_items.specs.ItemPaths.{prefix_of, AreFound};

use crate::files::Files;
use wit_maps::TextTable;
use wit_model::Interface;
use wit_types::{Arena, InterfaceId, InterfacePlace};

/// The interfaces of files that are resolved, and the places of the declared ones by their names: what
/// is found by a name has that name, and is after those of other packages.
#[derive(Drop)]
pub struct Interfaces<'f, 'a, 'n, 'e> {
    pub files: Files<'f, 'a, 'n, 'e>,
    /// The interfaces of other packages come first in it.
    pub arena: Arena<Interface, InterfacePlace>,
    pub by_name: TextTable<InterfaceId>,
    pub ghost prefix: { length (prefix_of files) ≤ length arena },
    pub ghost found: { AreFound (λ i. i.name) (length (prefix_of files)) arena by_name },
}
