//! A graph of places, its rows one after the other in one list.
ghost use Rattle.std.specs.Prelude.{◌≡◌, ℕ, ◌<◌, ◌≤◌, ◌^◌, Some, List, length, slice_get};
ghost use Rattle.wit_order.specs.Cut.{between, cut, IsCut};
ghost use Rattle.wit_graph.specs.Graph.{edge_count};

use std::marker::Model;

/// What is from a place on and before another.
fn part(list: &[usize], start: usize, end: usize) -> &[usize]
    requires within { end ≤ length list.now }
    requires rises { start ≤ end }
    ensures { result.now ≡ between start end list.now }
{
    &list[start..end]
}

/// For each place the row of the places that its edges lead to.
#[derive(Drop)]
pub struct Graph {
    /// Where each row begins among the targets, and where the last one ends.
    pub starts: Vec<usize>,
    /// What the edges lead to, those of a place after those of the places before it.
    pub targets: Vec<usize>,
}

impl Model for Graph {
    ghost Value = { List (List ℕ) };

    ghost view = { λ g. cut g.starts.items g.targets.items };

    ghost invariant = { λ g. IsCut g.starts.items g.targets.items };
}

impl Graph {
    /// How many places there are.
    pub fn len(&self) -> usize
        ensures long { result ≡ length self.now }
        ensures few { edge_count self.now < 2 ^ 64 }
    {
        self.starts.len() - 1
    }

    /// The row of a place.
    pub fn row(&self, place: usize) -> &[usize]
        requires { place < length self.now }
        ensures { slice_get self.now place ≡ Some result.now }
    {
        part(&self.targets, self.starts[place], self.starts[place + 1])
    }
}
