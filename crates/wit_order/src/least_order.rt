//! The least order of a table's names in which each comes after those that it needs.
ghost use Rattle.std.specs.Prelude.{◌≡◌, ℕ, List, IfOk, IfErr};
ghost use Rattle.wit_graph.specs.declared.sorted.Sorted.TheVariants.{Order};
ghost use Rattle.wit_graph.specs.Graph.{IsClosed, IsSortOf};
ghost use Rattle.wit_graph.specs.Table.{Row, rows, IsOrder, IsOrdered};
ghost use Rattle.wit_graph.specs.TableFaults.{IsFaultOf, FaultsMissing, FaultsCycle};
ghost use Rattle.wit_order.specs.Counted.{IsCounted};
ghost use Rattle.wit_graph.specs.Refused.{IsRefused, FailsAtMissing, FailsAtCycle};
ghost use Rattle.wit_graph.specs.PlaceGraph.{IsGraphOf, Cycles};

use crate::graph::Graph;
use crate::name_places::{graph_of, names_at};
use crate::name_table::NameTable;
use crate::order_refusal::refusal;
use crate::places::{self, first_stuck_edge};
use crate::ready::Steps;
use crate::{counting, heap};
use std::alloc::Global;
use wit_graph::OrderFault;
use wit_graph::sorted::Sorted;
use wit_maps::Table;
use wit_type_tree::leaves::Id;
use wit_type_tree::{ParseError, ParseErrorKind, ParseResult};

/// The sorted places, or the first edge both of whose ends reach a cycle.
fn conclude(graph: &Graph, sorted: Sorted) -> Result<Vec<usize>, OrderFault>
    requires closed { IsClosed graph.now }
    requires sorted { IsSortOf graph.now sorted }
    ensures ok { IfOk result (λ places. (rs : List Row) → IsGraphOf rs graph.now → IsOrder rs places.items) }
    ensures placed { IfOk result (λ places. sorted ≡ Order places) }
    ensures err { IfErr result (λ f. (rs : List Row) → IsGraphOf rs graph.now → Cycles rs f) }
{
    match sorted {
        Sorted::Order(places) => Ok(places),
        Sorted::Stuck(free) => match first_stuck_edge(graph, &free) {
            Some((place, index)) => Err(OrderFault::Cyclic { place, index }),
            None => unreachable!(),
        },
    }
}

/// [`order_places`] of either kind of table, by counts and a set.
fn order_by_set<'a, T: NameTable<'a>>(alloc: Global, deps: &T) -> Result<Vec<usize>, OrderFault>
    ensures ok { IfOk result (λ places. IsOrder (rows (T.entries deps.now)) places.items) }
    ensures err { IfErr result (IsFaultOf (rows (T.entries deps.now))) }
{
    let graph = graph_of(alloc, deps)?;
    let sorted = counting::sort(alloc, &graph)?;
    conclude(&graph, sorted)
}

/// [`order_places`], and what it took.
fn order_counted<'a, T: NameTable<'a>>(
    alloc: Global,
    deps: &T,
) -> Result<(Vec<usize>, Steps), OrderFault>
    ensures ok { IfOk result (λ r. IsOrder (rows (T.entries deps.now)) r.0.items) }
    ensures steps { IfOk result (λ r. IsCounted (rows (T.entries deps.now)) r.1) }
    ensures err { IfErr result (IsFaultOf (rows (T.entries deps.now))) }
{
    let graph = graph_of(alloc, deps)?;
    let (sorted, steps) = counting::sort_places(alloc, &graph)?;
    let places = conclude(&graph, sorted)?;
    Ok((places, steps))
}

/// [`order_places`] by counts and a heap.
fn order_by_heap<'a, T: NameTable<'a>>(alloc: Global, deps: &T) -> Result<Vec<usize>, OrderFault>
    ensures ok { IfOk result (λ places. IsOrder (rows (T.entries deps.now)) places.items) }
    ensures err { IfErr result (IsFaultOf (rows (T.entries deps.now))) }
{
    let graph = graph_of(alloc, deps)?;
    let sorted = heap::sort_places(alloc, &graph)?;
    conclude(&graph, sorted)
}

/// The places of the table's names, in the least order in which each comes after those that it
/// needs. A name's place is the index of its key; of two orders that is the lesser whose place is
/// the lesser where they first differ.
///
/// # Errors
///
/// The [`OrderFault`] that forbids an order, or a failed allocation.
pub fn order_places<'a>(
    alloc: Global,
    deps: &Table<&'a str, Vec<Id<'a>>>,
) -> Result<Vec<usize>, OrderFault>
    ensures ok { IfOk result (λ places. IsOrder (rows deps.now) places.items) }
    ensures err { IfErr result (IsFaultOf (rows deps.now)) }
    ensures missing { FaultsMissing (rows deps.now) result }
    ensures cycle { FaultsCycle (rows deps.now) result }
{
    match order_by_set(alloc, deps) {
        Ok(places) => Ok(places),
        Err(fault) => Err(fault),
    }
}

/// [`order_places`] by looking for the least ready place each time.
fn order_by_scan<'a, T: NameTable<'a>>(alloc: Global, deps: &T) -> Result<Vec<usize>, OrderFault>
    ensures ok { IfOk result (λ places. IsOrder (rows (T.entries deps.now)) places.items) }
    ensures err { IfErr result (IsFaultOf (rows (T.entries deps.now))) }
{
    let graph = graph_of(alloc, deps)?;
    let sorted = places::sort_places(alloc, &graph)?;
    conclude(&graph, sorted)
}

/// The keys at the places, or the refusal of what forbids them.
fn keys_of<'a, T: NameTable<'a>>(
    alloc: Global,
    kind: &str,
    deps: &T,
    order: Result<Vec<usize>, OrderFault>,
) -> ParseResult<Vec<&'a str>>
    requires ok { IfOk order (λ places. IsOrder (rows (T.entries deps.now)) places.items) }
    requires err { IfErr order (IsFaultOf (rows (T.entries deps.now))) }
    ensures ok { IfOk result (λ names. IsOrdered (T.entries deps.now) names.items) }
    ensures err { IfErr result (λ e. IsRefused (rows (T.entries deps.now)) kind.now e.kind) }
    ensures rule { IfErr result (λ e. e.rule ≡ 0) }
    ensures missing { FailsAtMissing (rows (T.entries deps.now)) kind.now result }
    ensures cycle { FailsAtCycle (rows (T.entries deps.now)) kind.now result }
{
    match order {
        Ok(places) => match names_at(alloc, deps, &places) {
            Ok(names) => Ok(names),
            Err(_) => Err(ParseError::of(ParseErrorKind::OutOfMemory, 0)),
        },
        Err(fault) => Err(refusal(alloc, kind, deps, fault)),
    }
}

/// The table's own keys in the order of [`order_places`], and what it took.
fn keys_counted<'a, T: NameTable<'a>>(
    alloc: Global,
    kind: &str,
    deps: &T,
) -> ParseResult<(Vec<&'a str>, Steps)>
    ensures ok { IfOk result (λ r. IsOrdered (T.entries deps.now) r.0.items) }
    ensures steps { IfOk result (λ r. IsCounted (rows (T.entries deps.now)) r.1) }
    ensures err { IfErr result (λ e. IsRefused (rows (T.entries deps.now)) kind.now e.kind) }
    ensures rule { IfErr result (λ e. e.rule ≡ 0) }
{
    match order_counted(alloc, deps) {
        Ok((places, steps)) => match keys_of(alloc, kind, deps, Ok(places)) {
            Ok(names) => Ok((names, steps)),
            Err(e) => Err(e),
        },
        Err(fault) => Err(refusal(alloc, kind, deps, fault)),
    }
}

/// [`toposort`], and what it took: how many names were put among those that wait for none, and
/// how many needed names were counted down. Where there is an order, that is each name once and
/// each needed name once, repeats too.
///
/// # Errors
///
/// Those of [`toposort`].
pub fn order_steps<'a, T: NameTable<'a>>(
    alloc: Global,
    kind: &str,
    deps: &T,
) -> ParseResult<(Vec<&'a str>, Steps)>
    ensures ok { IfOk result (λ r. IsOrdered (T.entries deps.now) r.0.items) }
    ensures steps { IfOk result (λ r. IsCounted (rows (T.entries deps.now)) r.1) }
    ensures err { IfErr result (λ e. IsRefused (rows (T.entries deps.now)) kind.now e.kind) }
    ensures rule { IfErr result (λ e. e.rule ≡ 0) }
    ensures missing { FailsAtMissing (rows (T.entries deps.now)) kind.now result }
    ensures cycle { FailsAtCycle (rows (T.entries deps.now)) kind.now result }
{
    keys_counted(alloc, kind, deps)
}

/// The table's own keys in the order of [`order_places`].
///
/// # Errors
///
/// Each has the rule 0, for the caller to set.
///
/// - `ItemNotFound`, with `kind` and no hint: the first needed name that is no key, by place and
///   then by index.
/// - `TypeCycle`, with `kind`: where every needed name is a key, the first of them that reaches
///   a cycle, as does the name that needs it.
/// - `OutOfMemory`: a growth was refused.
pub fn toposort<'a, T: NameTable<'a>>(
    alloc: Global,
    kind: &str,
    deps: &T,
) -> ParseResult<Vec<&'a str>>
    ensures ok { IfOk result (λ names. IsOrdered (T.entries deps.now) names.items) }
    ensures err { IfErr result (λ e. IsRefused (rows (T.entries deps.now)) kind.now e.kind) }
    ensures rule { IfErr result (λ e. e.rule ≡ 0) }
    ensures missing { FailsAtMissing (rows (T.entries deps.now)) kind.now result }
    ensures cycle { FailsAtCycle (rows (T.entries deps.now)) kind.now result }
{
    let order = order_by_set(alloc, deps);
    keys_of(alloc, kind, deps, order)
}

/// [`toposort`] by counts of open edges and a heap of the names that wait for none: its work
/// grows with the edges, and with the names times the logarithm of their number.
pub fn toposort_heap<'a, T: NameTable<'a>>(
    alloc: Global,
    kind: &str,
    deps: &T,
) -> ParseResult<Vec<&'a str>>
    ensures ok { IfOk result (λ names. IsOrdered (T.entries deps.now) names.items) }
    ensures err { IfErr result (λ e. IsRefused (rows (T.entries deps.now)) kind.now e.kind) }
    ensures rule { IfErr result (λ e. e.rule ≡ 0) }
    ensures missing { FailsAtMissing (rows (T.entries deps.now)) kind.now result }
    ensures cycle { FailsAtCycle (rows (T.entries deps.now)) kind.now result }
{
    let order = order_by_heap(alloc, deps);
    keys_of(alloc, kind, deps, order)
}

/// [`toposort`] by looking for the least ready name each time: its work grows with the square of
/// the names.
pub fn toposort_scan<'a, T: NameTable<'a>>(
    alloc: Global,
    kind: &str,
    deps: &T,
) -> ParseResult<Vec<&'a str>>
    ensures ok { IfOk result (λ names. IsOrdered (T.entries deps.now) names.items) }
    ensures err { IfErr result (λ e. IsRefused (rows (T.entries deps.now)) kind.now e.kind) }
    ensures rule { IfErr result (λ e. e.rule ≡ 0) }
    ensures missing { FailsAtMissing (rows (T.entries deps.now)) kind.now result }
    ensures cycle { FailsAtCycle (rows (T.entries deps.now)) kind.now result }
{
    let order = order_by_scan(alloc, deps);
    keys_of(alloc, kind, deps, order)
}
