//! Worlds of packages.
ghost use Rattle.std.specs.Prelude.{◌≡◌, ◌<◌, Some, drop, length, slice_get};
ghost use Rattle.wit_resolved.specs.Left.{world_places};
ghost use Rattle.wit_resolved.specs.Lookups.{world_exports, world_imports, world_name};
ghost use Rattle.wit_resolved.specs.Valid.{IsValid};

use crate::item_ref::ItemRefs;
use wit_model::{UnresolvedPackage, World};
use wit_types::WorldId;

/// A world of a resolved package.
#[derive(Clone, Copy)]
pub struct WorldRef<'p> {
    pub(crate) of: &'p UnresolvedPackage,
    pub(crate) place: usize,
    pub ghost valid: { ∥ IsValid of.now ∥₁ },
    pub ghost within: { place < length of.now.worlds },
}

impl<'p> WorldRef<'p> {
    /// Its id.
    pub fn id(&self) -> WorldId
        ensures { result ≡ self.now.place }
    {
        self.of.worlds.id_at(self.place)
    }

    /// Its entry.
    pub fn get(&self) -> &'p World
        ensures { slice_get self.now.of.now.worlds self.now.place ≡ Some result.now }
    {
        self.of.worlds.get(self.of.worlds.id_at(self.place))
    }

    /// Its name, which is empty if another package declares it.
    pub fn name(&self) -> &'p str
        ensures { world_name self.now.of.now self.now.place ≡ Some result.now }
    {
        self.get().name.as_str()
    }

    /// What it imports.
    pub fn imports(&self) -> ItemRefs<'p>
        ensures all { world_imports self.now.of.now self.now.place ≡ Some (drop result.next result.items.now) }
        ensures package { result.of.now ≡ self.now.of.now }
    {
        ItemRefs {
            of: self.of,
            items: &self.get().imports,
            next: 0,
        }
    }

    /// What it exports.
    pub fn exports(&self) -> ItemRefs<'p>
        ensures all { world_exports self.now.of.now self.now.place ≡ Some (drop result.next result.items.now) }
        ensures package { result.of.now ≡ self.now.of.now }
    {
        ItemRefs {
            of: self.of,
            items: &self.get().exports,
            next: 0,
        }
    }
}

/// The worlds of a package, in the order of the arena.
#[derive(Drop)]
pub struct WorldRefs<'p> {
    pub(crate) of: &'p UnresolvedPackage,
    pub(crate) next: usize,
    pub ghost valid: { ∥ IsValid of.now ∥₁ },
}

impl<'p> Iterator for WorldRefs<'p> {
    ghost use Rattle.std.specs.Iterator.{YieldsFirstBy, item_count};

    type Item = WorldRef<'p>;

    ghost next_gives = { YieldsFirstBy (λ w. (w.of.now, w.place)) (λ it. world_places it.of.now it.next) };

    ghost remaining = { item_count (λ it. world_places it.of.now it.next) };

    fn next(&mut self) -> Option<WorldRef<'p>> {
        let of = self.of;
        let place = self.next;
        let len = of.worlds.len();
        if place >= len {
            return None;
        }
        self.next = place + 1;
        Some(WorldRef { of, place })
    }
}
