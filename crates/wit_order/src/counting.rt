//! The order of places, by counts and a set of the places that wait for none.
ghost use Rattle.std.specs.Prelude.{◌<◌, All, IfOk, OnOk};
ghost use Rattle.std.specs.Bool.{MatchBool};
ghost use Rattle.wit_graph.specs.Graph.{IsBackward, IsClosed, IsSortOf};
ghost use Rattle.wit_order.specs.Released.{MayRelease, IsReleased, AreStepsOf};

use crate::graph::Graph;
use crate::heap::counts_of;
use crate::ready::{Ready, Steps};
use crate::turned::turned;
use std::alloc::{AllocError, Global};
use wit_graph::sorted::Sorted;

/// Whether the row leads only to places before this one.
fn is_row_backward(row: &[usize], place: usize) -> bool
    ensures { MatchBool result (All (λ w. w < place) row.now) (All (λ w. w < place) row.now → ⊥) }
{
    for w in row {
        if *w >= place {
            return false;
        }
    }
    true
}

/// Whether each edge leads to a place before its own.
fn is_backward(graph: &Graph) -> bool
    ensures { MatchBool result (IsBackward graph.now) (IsBackward graph.now → ⊥) }
{
    for p in 0..graph.len() {
        if !is_row_backward(graph.row(p), p) {
            return false;
        }
    }
    true
}

/// The places in their own order.
fn own_order(alloc: Global, graph: &Graph) -> Result<Sorted, AllocError>
    requires { IsBackward graph.now }
    ensures { IfOk result (IsSortOf graph.now) }
{
    let mut order = Vec::with_capacity(alloc, graph.len())?;
    for p in 0..graph.len() {
        order.push(p)?;
    }
    Ok(Sorted::Order(order))
}

/// Counts down an edge of each of the users.
fn release(users: &[usize], ready: &mut Ready) -> Result<(), AllocError>
    requires { MayRelease users.now ready.old }
    ensures { OnOk result (IsReleased users.now ready.old ready.new) }
{
    for user in users {
        ready.close(*user)?;
    }
    Ok(())
}

/// The places in the least order in which each is after those that its edges lead to, and
/// what that took.
pub fn sort_places(alloc: Global, graph: &Graph) -> Result<(Sorted, Steps), AllocError>
    requires { IsClosed graph.now }
    ensures sorted { IfOk result (λ r. IsSortOf graph.now r.0) }
    ensures steps { IfOk result (λ r. AreStepsOf graph.now r.0 r.1) }
{
    let users = turned(alloc, graph)?;
    let mut ready = Ready::new(alloc, counts_of(alloc, graph)?);
    let mut done = vec![in alloc; false; graph.len()]?;
    let mut order = Vec::with_capacity(alloc, graph.len())?;
    for _turn in 0..graph.len() {
        match ready.take() {
            Some(p) => {
                done[p] = true;
                order.push(p)?;
                release(users.row(p), &mut ready)?;
            }
            None => return Ok((Sorted::Stuck(done), ready.steps())),
        }
    }
    Ok((Sorted::Order(order), ready.steps()))
}

/// The places in that order, which is their own where each edge leads backward.
pub fn sort(alloc: Global, graph: &Graph) -> Result<Sorted, AllocError>
    requires { IsClosed graph.now }
    ensures { IfOk result (IsSortOf graph.now) }
{
    if is_backward(graph) {
        return own_order(alloc, graph);
    }
    let (sorted, _) = sort_places(alloc, graph)?;
    Ok(sorted)
}
