//! Names and their places.
ghost use Rattle.std.specs.Prelude.{◌≡◌, ◌⊎◌, ℕ, ◌<◌, All, IfOk, OnOk, IfErr, length};
ghost use Rattle.wit_graph.specs.declared.table_fault.OrderFault.TheVariants.{OutOfMemory};
ghost use Rattle.wit_graph.specs.Table.{AreKeysAt, rows};
ghost use Rattle.wit_graph.specs.PlaceGraph.{AddsRow, MissesFirst, Misses, IsGraphOf};

use crate::graph::Graph;
use crate::name_table::NameTable;
use std::alloc::{AllocError, Global};
use wit_graph::OrderFault;
use wit_type_tree::leaves::Id;

/// Puts the places of what the ids of a place name after the targets.
fn add_row<'a, T: NameTable<'a>>(
    targets: &mut Vec<usize>,
    deps: &T,
    place: usize,
    ids: &[Id<'_>],
) -> Result<(), OrderFault>
    ensures ok { OnOk result (AddsRow (rows (T.entries deps.now)) ids.now targets.old.items targets.new.items) }
    ensures err { IfErr result (λ f. (f ≡ OutOfMemory) ⊎ MissesFirst (rows (T.entries deps.now)) ids.now place f) }
{
    for (index, id) in ids.iter().enumerate() {
        match deps.place(id.name) {
            Some(target) => targets.push(target)?,
            None => return Err(OrderFault::Missing { place, index }),
        }
    }
    Ok(())
}

/// The graph of the table.
pub fn graph_of<'a, T: NameTable<'a>>(alloc: Global, deps: &T) -> Result<Graph, OrderFault>
    ensures ok { IfOk result (IsGraphOf (rows (T.entries deps.now))) }
    ensures err { IfErr result (λ f. (f ≡ OutOfMemory) ⊎ Misses (rows (T.entries deps.now)) f) }
{
    let len = deps.count();
    let mut starts = Vec::with_capacity(alloc, len.saturating_add(1))?;
    let mut targets = Vec::with_capacity(alloc, len)?;
    starts.push(0)?;
    for place in 0..len {
        add_row(&mut targets, deps, place, deps.needs(place))?;
        starts.push(targets.len())?;
    }
    Ok(Graph { starts, targets })
}

/// The keys at the places.
pub fn names_at<'a, T: NameTable<'a>>(
    alloc: Global,
    deps: &T,
    places: &[usize],
) -> Result<Vec<&'a str>, AllocError>
    requires { All (λ p. p < length (rows (T.entries deps.now))) places.now }
    ensures { IfOk result (λ names. AreKeysAt (T.entries deps.now) places.now names.items) }
{
    let mut names = Vec::with_capacity(alloc, places.len())?;
    for place in places {
        names.push(deps.key(*place))?;
    }
    Ok(names)
}
