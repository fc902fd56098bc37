//! The table of the items that files declare, and its order.
ghost use Rattle.std.specs.Prelude.{◌≡◌, ◌++◌, [], List, map, IfOk, OnOk};
ghost use Rattle.std.specs.List.{flat_map};
ghost use Rattle.wit_graph.specs.Table.{rows, IsOrder};
ghost use Rattle.wit_syntax.specs.Source.{Item, interface_part, world_part, top_names, file_items, item_name, is_world};
ghost use Rattle.wit_syntax.specs.ScopeTables.{use_path, include_path, item_row};
ghost use Rattle.wit_syntax.specs.Fault.{cyclic_at, item_word, missing_at};
ghost use Rattle.wit_syntax.specs.Repeats.{AllDiffer};
ghost use Rattle.wit_top_names.specs.Tops.{AreNamed, AreDeclared};
ghost use Rattle.wit_first.specs.FileFaults.{paths_fault};
ghost use Rattle.wit_first.specs.First.{Finds, FindsBy, first_in};
ghost use Rattle.wit_first.specs.OrderFaults.{IsOrderFault};
ghost use Rattle.wit_top_names.specs.Checks.{AddsEdges, FindsUnnamedIn};

use crate::order_refusal::refuse_item_order;
use std::alloc::{AllocError, Global};
use wit_maps::Table;
use wit_order::order_places;
use wit_top_names::declaration::{declarations, interface_items, world_items};
use wit_top_names::top_name::{Paths, add_edge};
use wit_tree::ParseResult;
use wit_tree::tree::{AstItem, Id, Interface, InterfaceItem, PackageFile, World, WorldItem};

/// Adds the edge of the path of a part of an interface, where that is a `use`.
fn add_use<'a>(
    alloc: Global,
    paths: Paths<'_, '_, 'a>,
    edges: &mut Vec<Id<'a>>,
    part: &InterfaceItem<'a>,
) -> ParseResult<()>
    ensures edges { OnOk result (AddsEdges paths.entry (use_path (interface_part part.now)) edges.old.items edges.new.items) }
    ensures first { FindsUnnamedIn paths.entry (use_path (interface_part part.now)) result }
{
    match part {
        InterfaceItem::TypeDef(_) | InterfaceItem::Func(_) => {}
        InterfaceItem::Use(used) => {
            add_edge(alloc, paths, edges, &used.from)?;
        }
    }
    Ok(())
}

/// The items that an interface uses, as edges.
fn interface_edges<'a>(
    alloc: Global,
    paths: Paths<'_, '_, 'a>,
    interface: &Interface<'a>,
) -> ParseResult<Vec<Id<'a>>>
    ensures edges { IfOk result (λ edges. AddsEdges paths.entry (flat_map use_path (map interface_part interface.now.items.items)) [] edges.items) }
    ensures first { FindsUnnamedIn paths.entry (flat_map use_path (map interface_part interface.now.items.items)) result }
{
    let mut edges = Vec::new(alloc);
    for part in interface_items(interface) {
        add_use(alloc, paths, &mut edges, part)?;
    }
    Ok(edges)
}

/// Adds the edge of the path of a part of a world, where that is an include.
fn add_include<'a>(
    alloc: Global,
    paths: Paths<'_, '_, 'a>,
    edges: &mut Vec<Id<'a>>,
    part: &WorldItem<'a>,
) -> ParseResult<()>
    ensures edges { OnOk result (AddsEdges paths.entry (include_path (world_part part.now)) edges.old.items edges.new.items) }
    ensures first { FindsUnnamedIn paths.entry (include_path (world_part part.now)) result }
{
    match part {
        WorldItem::TypeDef(_) | WorldItem::Use(_) | WorldItem::Extern(_) => {}
        WorldItem::Include(include) => {
            add_edge(alloc, paths, edges, &include.from)?;
        }
    }
    Ok(())
}

/// The items that a world includes, as edges.
fn world_edges<'a>(
    alloc: Global,
    world: &World<'a>,
    paths: Paths<'_, '_, 'a>,
) -> ParseResult<Vec<Id<'a>>>
    ensures edges { IfOk result (λ edges. AddsEdges paths.entry (flat_map include_path (map world_part world.now.items.items)) [] edges.items) }
    ensures first { FindsUnnamedIn paths.entry (flat_map include_path (map world_part world.now.items.items)) result }
{
    let mut edges = Vec::new(alloc);
    for part in world_items(world) {
        add_include(alloc, paths, &mut edges, part)?;
    }
    Ok(edges)
}

/// Adds the items that a file declares, each with the items that have to come before it; refuses a
/// path that leads nowhere.
pub(crate) fn add_items<'a>(
    alloc: Global,
    file: &PackageFile<'a>,
    paths: Paths<'_, '_, 'a>,
    table: &mut Table<&'a str, Vec<Id<'a>>>,
) -> ParseResult<()>
    requires named { AreNamed (top_names file.now) paths.top.now }
    requires distinct { AllDiffer (map (λ row. row.name) (rows table.old) ++ map item_name (file_items file.now)) }
    ensures rows { OnOk result (rows table.new ≡ rows table.old ++ map item_row (file_items file.now)) }
    ensures first { (is : List Item) → AreDeclared is paths.entry.declared.now → Finds (first_in (paths_fault is) (file_items file.now)) result }
{
    let items = declarations(file);
    for item in items {
        let (id, edges) = match item {
            AstItem::Interface(interface) => {
                (interface.name, interface_edges(alloc, paths, interface)?)
            }
            AstItem::World(world) => (world.name, world_edges(alloc, world, paths)?),
            AstItem::Use(_) => continue,
        };
        table.put(id.name, edges)?;
    }
    Ok(())
}

/// Adds of each item that a file declares whether it is a world.
pub(crate) fn add_kinds(file: &PackageFile<'_>, kinds: &mut Vec<bool>) -> Result<(), AllocError>
    ensures { OnOk result (kinds.new.items ≡ kinds.old.items ++ map is_world (file_items file.now)) }
{
    let items = declarations(file);
    for item in items {
        match item {
            AstItem::Interface(_) => kinds.push(false)?,
            AstItem::World(_) => kinds.push(true)?,
            AstItem::Use(_) => {}
        }
    }
    Ok(())
}

/// The places of the items of a table, each after those that have to come before it, in the least
/// such order.
pub(crate) fn table_order<'a>(
    alloc: Global,
    table: &Table<&'a str, Vec<Id<'a>>>,
) -> ParseResult<Vec<usize>>
    ensures order { IfOk result (λ places. IsOrder (rows table.now) places.items) }
    ensures first { FindsBy (IsOrderFault (missing_at 7 item_word) (cyclic_at 8 item_word) (rows table.now)) result }
{
    match order_places(alloc, table) {
        Ok(places) => Ok(places),
        Err(fault) => Err(refuse_item_order(alloc, table, fault)),
    }
}
