//! The worlds of a package in its listing.
ghost use Rattle.std.specs.Prelude.{◌≡◌, ◌++◌, OnOk, codes, string_bytes};
ghost use Rattle.std.specs.List.{flat_map};
ghost use Rattle.wit_listing.specs.Lists.{numbered};
ghost use Rattle.wit_listing.specs.ListingTexts.{Adds};
ghost use Rattle.wit_listing.specs.Worlds.{extern_line, extern_text, has_own_line, include_line, included_text, is_inline, key_text, rename_text, world_line, world_lines, world_name};

use crate::functions::push_signature;
use crate::small_texts::{push_marked, push_numbered, push_stability};
use std::alloc::AllocError;
use wit_maps::Table;
use wit_model::{IncludeName, Interface, World, WorldInclude, WorldItem, WorldKey};
use wit_types::{Arena, InterfaceId, InterfacePlace, Stability, WorldId, WorldPlace};

/// What an import or export is found by.
fn push_key(text: &mut String, key: &WorldKey) -> Result<(), AllocError>
    ensures { OnOk result (Adds text.old text.new (key_text key.now)) }
{
    match key {
        WorldKey::Name(name) => text.push_str(name.as_str()),
        WorldKey::Interface(id) => push_numbered(text, "interface-", id.index()),
    }
}

/// Whether an interface has no name and a known stability, so that it is one written in a world.
fn has_own_line(interface: &Interface) -> bool
    ensures { result ≡ has_own_line interface.now }
{
    match (&interface.name, &interface.stability) {
        (Some(_), _) => false,
        (None, Stability::Unknown) => false,
        (None, _) => true,
    }
}

/// Whether an import or export by a name is an interface whose own line says its stability.
fn is_inline(interfaces: &Arena<Interface, InterfacePlace>, key: &WorldKey, id: InterfaceId) -> bool
    ensures { result ≡ is_inline interfaces.now key.now id }
{
    match key {
        WorldKey::Interface(_) => false,
        WorldKey::Name(_) => {
            if id.index() < interfaces.len() {
                has_own_line(interfaces.get(id))
            } else {
                false
            }
        }
    }
}

/// What is imported or exported, after a sign of equality.
fn push_extern(
    text: &mut String,
    interfaces: &Arena<Interface, InterfacePlace>,
    key: &WorldKey,
    item: &WorldItem,
) -> Result<(), AllocError>
    ensures { OnOk result (Adds text.old text.new (codes " = " ++ extern_text interfaces.now key.now item.now)) }
{
    match item {
        WorldItem::Interface { id, stability, .. } => {
            text.push_str(" = ")?;
            push_numbered(text, "interface i", id.index())?;
            if is_inline(interfaces, key, *id) {
                return Ok(());
            }
            push_stability(text, stability)
        }
        WorldItem::Function(function) => {
            push_signature(text, function)?;
            push_stability(text, &function.stability)
        }
        WorldItem::Type_ { id, .. } => push_numbered(text, " = type #", id.index()),
    }
}

/// The line of an import or export, which begins with a word for its side.
fn push_extern_line(
    text: &mut String,
    side: &str,
    interfaces: &Arena<Interface, InterfacePlace>,
    key: &WorldKey,
    item: &WorldItem,
) -> Result<(), AllocError>
    ensures { OnOk result (Adds text.old text.new (extern_line side.now interfaces.now (key.now, item.now))) }
{
    text.push_str(side)?;
    push_key(text, key)?;
    push_extern(text, interfaces, key, item)?;
    text.push('\n')
}

fn push_externs(
    text: &mut String,
    side: &str,
    interfaces: &Arena<Interface, InterfacePlace>,
    externs: &Table<WorldKey, WorldItem>,
) -> Result<(), AllocError>
    ensures { OnOk result (Adds text.old text.new (flat_map (extern_line side.now interfaces.now) externs.now)) }
{
    for place in 0..externs.len() {
        let Some((key, item)) = externs.get_index(place) else {
            unreachable!()
        };
        push_extern_line(text, side, interfaces, key, item)?;
    }
    Ok(())
}

/// A renaming, with a comma before it unless it is the first.
fn push_rename(text: &mut String, place: usize, rename: &IncludeName) -> Result<(), AllocError>
    ensures { OnOk result (Adds text.old text.new (rename_text place rename.now)) }
{
    if place > 0 {
        text.push(',')?;
    }
    text.push(' ')?;
    text.push_str(rename.name.as_str())?;
    text.push_str(" as ")?;
    text.push_str(rename.as_.as_str())
}

fn push_renames(text: &mut String, renames: &[IncludeName]) -> Result<(), AllocError>
    ensures { OnOk result (Adds text.old text.new (numbered rename_text 0 renames.now)) }
{
    for (place, rename) in renames.iter().enumerate() {
        push_rename(text, place, rename)?;
    }
    Ok(())
}

/// The place of an included world.
fn push_included(text: &mut String, world: WorldId) -> Result<(), AllocError>
    ensures { OnOk result (Adds text.old text.new (included_text world)) }
{
    push_numbered(text, "  include w", world.index())
}

/// The line of an included world.
fn push_include(text: &mut String, include: &WorldInclude) -> Result<(), AllocError>
    ensures { OnOk result (Adds text.old text.new (include_line include.now)) }
{
    push_included(text, include.id)?;
    push_renames(text, include.names.as_slice())?;
    text.push('\n')
}

fn push_includes(text: &mut String, includes: &[WorldInclude]) -> Result<(), AllocError>
    ensures { OnOk result (Adds text.old text.new (flat_map include_line includes.now)) }
{
    for include in includes {
        push_include(text, include)?;
    }
    Ok(())
}

/// A world's name, or `-` where it is empty.
fn push_world_name(text: &mut String, name: &str) -> Result<(), AllocError>
    ensures { OnOk result (Adds text.old text.new (world_name name.now)) }
{
    if name.is_empty() {
        text.push('-')
    } else {
        text.push_str(name)
    }
}

/// The line of a world.
fn push_world_line(text: &mut String, place: usize, world: &World) -> Result<(), AllocError>
    ensures { OnOk result (Adds text.old text.new (world_line place world.now)) }
{
    push_marked(text, 'w', place)?;
    text.push(' ')?;
    push_world_name(text, world.name.as_str())?;
    push_stability(text, &world.stability)?;
    text.push('\n')
}

/// The line of a world, and those of what it imports, exports and includes.
fn push_world(
    text: &mut String,
    place: usize,
    interfaces: &Arena<Interface, InterfacePlace>,
    world: &World,
) -> Result<(), AllocError>
    ensures { OnOk result (Adds text.old text.new (world_lines interfaces.now place world.now)) }
{
    push_world_line(text, place, world)?;
    push_externs(text, "  import ", interfaces, &world.imports)?;
    push_externs(text, "  export ", interfaces, &world.exports)?;
    push_includes(text, world.includes.as_slice())
}

/// The lines of all worlds, in order.
pub fn push_worlds(
    text: &mut String,
    interfaces: &Arena<Interface, InterfacePlace>,
    worlds: &Arena<World, WorldPlace>,
) -> Result<(), AllocError>
    ensures { OnOk result (Adds text.old text.new (numbered (world_lines interfaces.now) 0 worlds.now)) }
{
    for place in 0..worlds.len() {
        push_world(text, place, interfaces, worlds.get(worlds.id_at(place)))?;
    }
    Ok(())
}
