//! The interfaces that are written in a world, each with its names.
ghost use Rattle.std.specs.Prelude.{◌≡◌, ◌+◌, ◌++◌, ◌∷◌, [], map, IfOk, OnOk};
ghost use Rattle.std.specs.List.{filter, flat_map};
ghost use Rattle.std.specs.Option.{option_copied, option_map_or};
ghost use Rattle.wit_syntax.specs.Source.{TheWorld, world_part as the_world_part};
ghost use Rattle.wit_syntax.specs.Sides.{extern_items, is_interface, items_on, part_items};
ghost use Rattle.wit_first.specs.First.{Finds, first_in};
ghost use Rattle.wit_first.specs.UseFaults.{use_fault};
ghost use Rattle.wit_files.specs.FileNames.{top_at};
ghost use Rattle.wit_items.specs.ItemPaths.{prefix_of, HasItem, item_in};
ghost use Rattle.wit_items.specs.BorrowedItems.{side_uses, AreInside, ArePlacedInside};

use crate::files::Files;
use crate::items::{InlineInterface, Inside};
use crate::part_names::interface_names;
use std::alloc::{AllocError, Global};
use wit_notes::is_same_side;
use wit_top_names::declaration::world_items;
use wit_tree::ParseResult;
use wit_tree::tree::{Extern, ExternKind, InterfaceItem, World, WorldItem, WorldSide};
use wit_values::push;

/// One more than so many; what a `usize` cannot count fits into no memory.
pub fn one_more(count: usize) -> Result<usize, AllocError>
    ensures { IfOk result (λ all. all ≡ count + 1) }
{
    match count.checked_add(1) {
        Some(all) => Ok(all),
        None => Err(AllocError),
    }
}

/// The interface that a part of a world imports or exports on a side, by its path or written there, if
/// that is what it does.
fn interface_on<'f, 'a>(part: &'f WorldItem<'a>, side: WorldSide) -> Option<&'f Extern<'a>>
    ensures { filter is_interface (items_on side (part_items (the_world_part part.now))) ≡ option_map_or (λ x. extern_items x x.kind) (option_copied result) [] }
{
    match part {
        WorldItem::Extern(written) => {
            if !is_same_side(side, written.side) {
                return None;
            }
            match &written.kind {
                ExternKind::Func(_, _) => None,
                ExternKind::Interface(_, _) => Some(written),
                ExternKind::Path(_) => Some(written),
                ExternKind::NamedPath(_, _) => Some(written),
            }
        }
        WorldItem::TypeDef(_) => None,
        WorldItem::Use(_) => None,
        WorldItem::Include(_) => None,
    }
}

/// Adds an item to a list that mostly has one: the first takes room for itself alone.
fn push_few<T: Drop>(items: &mut Vec<T>, item: T) -> Result<(), AllocError>
    ensures { OnOk result (items.new.items ≡ items.old.items ++ item ∷ []) }
{
    if items.len() == 0 {
        items.reserve_exact(1)?;
        items.push_reserved(item);
        return Ok(());
    }
    push(items, item)
}

/// The interfaces that are written on a side of a world of the file at a place, in source order, with
/// their names.
pub fn names_inside<'f, 'a>(
    alloc: Global,
    files: &Files<'f, 'a, '_, '_>,
    world: &'f World<'a>,
    side: WorldSide,
    place: usize,
) -> ParseResult<Vec<Inside<'f, 'a>>>
    requires item { HasItem files.now place (TheWorld world.now) }
    ensures are { IfOk result (λ inside. AreInside side (item_in files.now place (TheWorld world.now)) inside.items) }
    ensures placed { IfOk result (λ inside. ArePlacedInside (prefix_of files.now) inside.items) }
    ensures first { Finds (first_in (use_fault files.now (top_at files.now place)) (flat_map (side_uses side) (map the_world_part world.now.items.items))) result }
{
    let mut inside = Vec::new(alloc);
    let mut before: usize = 0;
    for part in world_items(world) {
        let Some(written) = interface_on(part, side) else {
            continue;
        };
        match &written.kind {
            ExternKind::Interface(name, items) => {
                let items: &[InterfaceItem<'_>] = items;
                let names = interface_names(alloc, files, items, place)?;
                let inline = InlineInterface {
                    world: world.name.name,
                    place: before,
                    written,
                    name: *name,
                    items,
                };
                push_few(&mut inside, Inside { inline, names })?;
            }
            ExternKind::Path(_) => {}
            ExternKind::Func(_, _) => {}
            ExternKind::NamedPath(_, _) => {}
        }
        before = one_more(before)?;
    }
    Ok(inside)
}
