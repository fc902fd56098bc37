//! Maps in insertion order, whose values may be functions and can be put into another order.
ghost use Rattle.std.specs.Prelude.{◌≡◌, ◌<◌, Some, length, slice_get};
ghost use Rattle.wit_functions.specs.Reordered.{AreFirst, ArePositions, IsOrder};

use crate::reordering::{Positions, put_in_order};
use indexmap::IndexMap;
use std::alloc::Global;
use std::hash::Hash;
use wit_maps::{Table, TextTable};

/// A map in insertion order, as [`place_setters_after_getters`](crate::place_setters_after_getters) takes
/// one: an [`IndexMap`], or a [`Table`] or [`TextTable`], as packages have them.
pub trait FunctionMap<V> {
    ghost use Rattle.std.specs.Prelude.{List};

    ghost Key: { Type 0 };

    ghost entries: { Self → List (Key × V) };

    /// How many entries there are.
    fn count(&self) -> usize
        ensures { result ≡ length (entries self.now) };

    /// The value at a place.
    fn value_at(&self, place: usize) -> &V
        requires { place < length (entries self.now) }
        ensures { (e : Key × V) → slice_get (entries self.now) place ≡ Some e → result.now ≡ e.1 };

    /// The allocator of the map.
    fn alloc(&self) -> Global;

    /// Puts the entries, which are at their first places, into another order.
    fn reorder(&mut self, positions: Positions, order: Vec<usize>)
        requires inverse { ArePositions (length (entries self.old)) positions.entries.items positions.places.items }
        requires first { AreFirst positions.entries.items }
        ensures { (now : List (Key × V)) → IsOrder (entries self.old) order.items now → entries self.new ≡ now };
}

impl<K: Eq + Hash, V> FunctionMap<V> for IndexMap<K, V> {
    ghost Key = { K };

    ghost entries = { λ map. map.entries };

    fn count(&self) -> usize {
        self.len()
    }

    fn value_at(&self, place: usize) -> &V {
        let (_, value) = self.get_index(place).unwrap();
        value
    }

    fn alloc(&self) -> Global {
        *self.allocator()
    }

    fn reorder(&mut self, positions: Positions, order: Vec<usize>) {
        put_in_order(self, positions, order);
    }
}

impl<K: Eq + Hash + Ord + Clone + Drop, V> FunctionMap<V> for Table<K, V> {
    ghost Key = { K };

    ghost entries = { λ table. table };

    fn count(&self) -> usize {
        self.len()
    }

    fn value_at(&self, place: usize) -> &V {
        let (_, value) = self.get_index(place).unwrap();
        value
    }

    fn alloc(&self) -> Global {
        *self.allocator()
    }

    fn reorder(&mut self, positions: Positions, order: Vec<usize>) {
        put_in_order(self, positions, order);
        self.reindex();
    }
}

impl<V> FunctionMap<V> for TextTable<V> {
    ghost use Rattle.std.specs.Prelude.{ℕ, List};

    ghost Key = { List ℕ };

    ghost entries = { λ table. table };

    fn count(&self) -> usize {
        self.len()
    }

    fn value_at(&self, place: usize) -> &V {
        let (_, value) = self.get_index(place).unwrap();
        value
    }

    fn alloc(&self) -> Global {
        *self.allocator()
    }

    fn reorder(&mut self, positions: Positions, order: Vec<usize>) {
        put_in_order(self, positions, order);
        self.reindex();
    }
}
