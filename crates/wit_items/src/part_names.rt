//! The names that the parts of an item bring.
ghost use Rattle.std.specs.Prelude.{◌≡◌, ◌++◌, Contains, map, IfOk, OnOk};
ghost use Rattle.std.specs.List.{flat_map};
ghost use Rattle.wit_tree.specs.declared.tree.Use.{Use as TheUse};
ghost use Rattle.wit_syntax.specs.Source.{TheWorld, interface_part as the_interface_part, leads, own_uses, part_names, world_part as the_world_part};
ghost use Rattle.wit_first.specs.First.{Finds, first_in};
ghost use Rattle.wit_first.specs.UseFaults.{use_fault};
ghost use Rattle.wit_files.specs.FileNames.{top_at};
ghost use Rattle.wit_scopes.specs.BorrowedNames.{name_view, IsPlaced, AreNamesPlaced};
ghost use Rattle.wit_items.specs.ItemPaths.{prefix_of, part_view, HasItem, HasPath, source_target};

use crate::files::Files;
use crate::resolved_path::path_source;
use std::alloc::Global;
use wit_notes::check_metadata;
use wit_scopes::scope_name::{DefinedName, ScopeName, Source, add_used_names};
use wit_top_names::declaration::world_items;
use wit_tree::ParseResult;
use wit_tree::tree::{Extern, Include, InterfaceItem, NamedFunc, TypeDef, Use, World, WorldItem};

/// A part of an item.
#[derive(Clone, Copy)]
pub enum Part<'f, 'a> {
    DefinitionPart(&'f TypeDef<'a>),
    UsePart(&'f Use<'a>),
    IncludePart(&'f Include<'a>),
    FunctionPart(&'f NamedFunc<'a>),
    ExternPart(&'f Extern<'a>),
}

/// A part of an interface.
fn interface_part<'f, 'a>(part: &'f InterfaceItem<'a>) -> Part<'f, 'a>
    ensures { part_view result ≡ the_interface_part part.now }
{
    match part {
        InterfaceItem::TypeDef(definition) => Part::DefinitionPart(definition),
        InterfaceItem::Use(used) => Part::UsePart(used),
        InterfaceItem::Func(function) => Part::FunctionPart(function),
    }
}

/// A part of a world.
fn world_part<'f, 'a>(part: &'f WorldItem<'a>) -> Part<'f, 'a>
    ensures { part_view result ≡ the_world_part part.now }
{
    match part {
        WorldItem::TypeDef(definition) => Part::DefinitionPart(definition),
        WorldItem::Use(used) => Part::UsePart(used),
        WorldItem::Include(include) => Part::IncludePart(include),
        WorldItem::Extern(external) => Part::ExternPart(external),
    }
}

/// The interface that a `use` in the file at a place leads to; refuses attributes that break a rule, and
/// then a path that leads to no item, or to a world.
fn sound_source<'f, 'a>(
    alloc: Global,
    files: &Files<'f, 'a, '_, '_>,
    place: usize,
    used: &'f Use<'a>,
) -> ParseResult<Source<'f, 'a>>
    requires path { HasPath files.now place used.now.from }
    ensures source { IfOk result (λ s. source_target s ≡ leads (top_at files.now place) used.now.from) }
    ensures placed { IfOk result (IsPlaced (prefix_of files.now)) }
    ensures first { Finds (use_fault files.now (top_at files.now place) used.now) result }
{
    check_metadata(alloc, &used.attributes)?;
    path_source(alloc, files, place, &used.from)
}

/// Adds the names that a part of an item of the file at a place brings.
fn add_part<'f, 'a>(
    alloc: Global,
    files: &Files<'f, 'a, '_, '_>,
    part: Part<'f, 'a>,
    place: usize,
    names: &mut Vec<ScopeName<'f, 'a>>,
) -> ParseResult<()>
    requires paths { (u : TheUse) → Contains (own_uses (part_view part)) u → HasPath files.now place u.from }
    ensures view { OnOk result (map name_view names.new.items ≡ map name_view names.old.items ++ part_names (top_at files.now place) (part_view part.entry)) }
    ensures placed { OnOk result (AreNamesPlaced (prefix_of files.now) names.old.items → AreNamesPlaced (prefix_of files.now) names.new.items) }
    ensures first { Finds (first_in (use_fault files.now (top_at files.now place)) (own_uses (part_view part.entry))) result }
{
    match part {
        Part::DefinitionPart(definition) => {
            names.push(ScopeName::Defined(DefinedName { definition }))?;
        }
        Part::UsePart(used) => {
            let from = sound_source(alloc, files, place, used)?;
            add_used_names(names, &from, &used.attributes, &used.names)?;
        }
        Part::IncludePart(_) => {}
        Part::FunctionPart(_) => {}
        Part::ExternPart(_) => {}
    }
    Ok(())
}

/// How many names a part brings.
fn room_of(part: Part<'_, '_>) -> usize {
    match part {
        Part::DefinitionPart(_) => 1,
        Part::UsePart(used) => used.names.len(),
        Part::IncludePart(_) => 0,
        Part::FunctionPart(_) => 0,
        Part::ExternPart(_) => 0,
    }
}

/// How many names the items of an interface bring.
fn interface_room(items: &[InterfaceItem<'_>]) -> usize {
    let mut room: usize = 0;
    for part in items {
        room = room.saturating_add(room_of(interface_part(part)));
    }
    room
}

/// How many names the items of a world bring.
fn world_room(items: &[WorldItem<'_>]) -> usize {
    let mut room: usize = 0;
    for part in items {
        room = room.saturating_add(room_of(world_part(part)));
    }
    room
}

/// The names of an interface of the file at a place, which has these items.
pub fn interface_names<'f, 'a>(
    alloc: Global,
    files: &Files<'f, 'a, '_, '_>,
    items: &'f [InterfaceItem<'a>],
    place: usize,
) -> ParseResult<Vec<ScopeName<'f, 'a>>>
    requires paths { (u : TheUse) → Contains (flat_map own_uses (map the_interface_part items.now)) u → HasPath files.now place u.from }
    ensures view { IfOk result (λ names. map name_view names.items ≡ flat_map (part_names (top_at files.now place)) (map the_interface_part items.now)) }
    ensures placed { IfOk result (λ names. AreNamesPlaced (prefix_of files.now) names.items) }
    ensures first { Finds (first_in (use_fault files.now (top_at files.now place)) (flat_map own_uses (map the_interface_part items.now))) result }
{
    let mut names = Vec::with_capacity(alloc, interface_room(items))?;
    for part in items {
        add_part(alloc, files, interface_part(part), place, &mut names)?;
    }
    Ok(names)
}

/// The names of a world of the file at a place.
pub fn world_names<'f, 'a>(
    alloc: Global,
    files: &Files<'f, 'a, '_, '_>,
    world: &'f World<'a>,
    place: usize,
) -> ParseResult<Vec<ScopeName<'f, 'a>>>
    requires item { HasItem files.now place (TheWorld world.now) }
    ensures view { IfOk result (λ names. map name_view names.items ≡ flat_map (part_names (top_at files.now place)) (map the_world_part world.now.items.items)) }
    ensures placed { IfOk result (λ names. AreNamesPlaced (prefix_of files.now) names.items) }
    ensures first { Finds (first_in (use_fault files.now (top_at files.now place)) (flat_map own_uses (map the_world_part world.now.items.items))) result }
{
    let written = world_items(world);
    let mut names = Vec::with_capacity(alloc, world_room(written))?;
    for part in written {
        add_part(alloc, files, world_part(part), place, &mut names)?;
    }
    Ok(names)
}
