//! A graph with its edges turned round.
ghost use Rattle.std.specs.Prelude.{◌≡◌, ℕ, ◌+◌, ◌<◌, ◌^◌, List, length, take, All, IfOk, slice_index, sum};
ghost use Rattle.wit_graph.specs.Graph.{IsClosed, edge_count};
ghost use Rattle.wit_order.specs.Heap.{times};
ghost use Rattle.wit_order.specs.Turned.{FillsNext, HasRoom, IsFilling, IsTurned, edges_to};

use crate::graph::Graph;
use std::alloc::{AllocError, Global};

/// Counts the edges of a row, each at the place that it leads to.
fn count_row(counts: &mut [usize], row: &[usize])
    requires within { All (λ w. w < length counts.old) row.now }
    requires room { sum counts.old + length row.now < 2 ^ 64 }
    ensures long { length counts.new ≡ length counts.old }
    ensures counts { (w : ℕ) → slice_index counts.new w ≡ slice_index counts.old w + times w row.now }
    ensures all { sum counts.new ≡ sum counts.old + length row.now }
{
    for w in row {
        counts[*w] += 1;
    }
}

/// How many edges lead to each place.
fn counts_to(alloc: Global, graph: &Graph) -> Result<Vec<usize>, AllocError>
    requires { IsClosed graph.now }
    ensures long { IfOk result (λ counts. length counts.items ≡ length graph.now) }
    ensures counts { IfOk result (λ counts. (w : ℕ) → slice_index counts.items w ≡ edges_to w graph.now) }
    ensures all { IfOk result (λ counts. sum counts.items ≡ edge_count graph.now) }
{
    let mut counts = vec![in alloc; 0; graph.len()]?;
    for p in 0..graph.len() {
        count_row(&mut counts, graph.row(p));
    }
    Ok(counts)
}

/// Where runs of these lengths begin, one after the other, and where the last one ends.
fn starts_of(alloc: Global, lengths: &[usize]) -> Result<Vec<usize>, AllocError>
    requires { sum lengths.now < 2 ^ 64 }
    ensures long { IfOk result (λ starts. length starts.items ≡ length lengths.now + 1) }
    ensures starts { IfOk result (λ starts. (i : ℕ) → i < length lengths.now + 1 → slice_index starts.items i ≡ sum (take i lengths.now)) }
{
    let mut starts = Vec::with_capacity(alloc, lengths.len() + 1)?;
    let mut end = 0;
    for length in lengths {
        starts.push(end)?;
        end += *length;
    }
    starts.push(end)?;
    Ok(starts)
}

/// Puts p before what the run of each place of its row has.
fn add_user(users: &mut [usize], prefixes: &mut [usize], row: &[usize], p: usize)
    requires room { (starts : List ℕ) × (put : ℕ → ℕ) × (seen : ℕ → ℕ → ℕ) × IsFilling starts put seen users.old prefixes.old × HasRoom starts put row.now }
    requires within { All (λ w. w + 1 < length prefixes.old) row.now }
    ensures wide { length users.new ≡ length users.old }
    ensures long { length prefixes.new ≡ length prefixes.old }
    ensures filling { FillsNext p row.now users.old prefixes.old users.new prefixes.new }
{
    for w in row {
        let prefix = prefixes[*w + 1] - 1;
        prefixes[*w + 1] = prefix;
        users[prefix] = p;
    }
}

/// For each place the row of those whose edges lead to it, each as often as it has such edges.
pub fn turned(alloc: Global, graph: &Graph) -> Result<Graph, AllocError>
    requires { IsClosed graph.now }
    ensures { IfOk result (IsTurned graph.now) }
{
    let len = graph.len();
    let starts = starts_of(alloc, &counts_to(alloc, graph)?)?;
    let mut prefixes = starts.clone()?;
    let mut targets = vec![in alloc; 0; starts[len]]?;
    for p in 0..len {
        add_user(&mut targets, &mut prefixes, graph.row(p), p);
    }
    Ok(Graph { starts, targets })
}
