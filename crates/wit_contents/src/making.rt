//! What is made of files, item by item.
ghost use Rattle.std.specs.Prelude.{◌≡◌};
ghost use Rattle.wit_arena.specs.Common.{AddsForeign};
ghost use Rattle.wit_contents.specs.Making.{IsBare, IsBegun};

use std::alloc::{AllocError, Global};
use wit_entries::entries::Entries;
use wit_entries::scope::Required;
use wit_items::files::Files;
use wit_items::interfaces::Interfaces;
use wit_items::items::{Declared, Item};
use wit_links::resolved::Resolved;
use wit_maps::TextTable;
use wit_model::{Interface, World};
use wit_types::{Arena, InterfacePlace, WorldPlace};

/// What grows while items are resolved.
#[derive(Drop)]
pub struct Growing {
    pub types: Entries,
    /// The interfaces that are written in worlds, in the order in which they are seen.
    pub inside: Arena<Interface, InterfacePlace>,
    /// What handles require of types of other packages.
    pub required: Vec<Required>,
}

/// What is made of files so far.
#[derive(Drop)]
pub struct Making<'f, 'a, 'n, 'e> {
    pub resolved: Resolved<'f, 'a, 'n, 'e>,
    pub growing: Growing,
}

/// How many worlds are among items.
fn world_count(items: &[Item<'_, '_>]) -> usize {
    let mut count: usize = 0;
    for item in items {
        if let Declared::World(_) = item.declared {
            count = count.saturating_add(1);
        }
    }
    count
}

/// How many interfaces are written in the worlds among items.
fn inside_count(items: &[Item<'_, '_>]) -> usize {
    let mut count: usize = 0;
    for item in items {
        count = count.saturating_add(item.imported.len());
        count = count.saturating_add(item.exported.len());
    }
    count
}

/// Reserves capacity for the worlds among items, and for the interfaces that are written in them.
#[inline(never)]
pub(crate) fn make_room(
    items: &[Item<'_, '_>],
    inside: &mut Arena<Interface, InterfacePlace>,
    worlds: &mut Arena<World, WorldPlace>,
) -> Result<(), AllocError>
    ensures inside { inside.new ≡ inside.old }
    ensures worlds { worlds.new ≡ worlds.old }
{
    inside.reserve(inside_count(items))?;
    worlds.reserve(world_count(items))
}

/// What is made before any item is resolved: only what files name of other packages.
pub(crate) fn begun<'f, 'a, 'n, 'e>(
    alloc: Global,
    files: Files<'f, 'a, 'n, 'e>,
    growing: Growing,
    interfaces: Arena<Interface, InterfacePlace>,
    worlds: Arena<World, WorldPlace>,
) -> Making<'f, 'a, 'n, 'e>
    requires foreign { AddsForeign files growing.types interfaces worlds }
    requires bare { IsBare growing }
    ensures files { result.resolved.interfaces.files ≡ files.entry }
    ensures begun { IsBegun result }
{
    let interfaces = Interfaces {
        files,
        arena: interfaces,
        by_name: TextTable::new(alloc),
    };
    let resolved = Resolved {
        interfaces,
        worlds,
        world_names: TextTable::new(alloc),
    };
    Making { resolved, growing }
}
