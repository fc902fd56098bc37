//! Entries put into another order.
ghost use Rattle.std.specs.Prelude.{◌≡◌, ◌<◌, List, IfNone, IfOk, IfSome, length, swap};
ghost use Rattle.wit_functions.specs.Reordered.{AreFirst, ArePositions, IsExchange, IsOrder};

use indexmap::IndexMap;
use std::alloc::{AllocError, Global};
use std::hash::Hash;
use wit_maps::{Table, TextTable};

/// Entries at places, two of which may change places.
pub trait Entries {
    ghost use Rattle.std.specs.Prelude.{List};

    ghost Entry: { Type 0 };

    ghost entries: { Self → List Entry };

    /// Lets the entries at two places change places.
    fn exchange(&mut self, one: usize, other: usize)
        requires one { one < length (entries self.old) }
        requires other { other < length (entries self.old) }
        ensures { entries self.new ≡ swap (entries self.old) one other };
}

impl<T> Entries for Vec<T> {
    ghost Entry = { T };

    ghost entries = { λ items. items.items };

    fn exchange(&mut self, one: usize, other: usize) {
        self.swap(one, other);
    }
}

impl<K: Eq + Hash, V> Entries for IndexMap<K, V> {
    ghost Entry = { K × V };

    ghost entries = { λ map. map.entries };

    fn exchange(&mut self, one: usize, other: usize) {
        self.swap_indices(one, other);
    }
}

impl<K: Eq + Hash + Ord + Drop, V> Entries for Table<K, V> {
    ghost Entry = { K × V };

    ghost entries = { λ table. table };

    fn exchange(&mut self, one: usize, other: usize) {
        self.swap_indices(one, other);
    }
}

impl<V> Entries for TextTable<V> {
    ghost use Rattle.std.specs.Prelude.{ℕ, List};

    ghost Entry = { List ℕ × V };

    ghost entries = { λ table. table };

    fn exchange(&mut self, one: usize, other: usize) {
        self.swap_indices(one, other);
    }
}

/// Where entries are, each given by the place where it was at first.
#[derive(Drop)]
pub struct Positions {
    /// The entry at each place.
    pub entries: Vec<usize>,
    /// The place of each entry.
    pub places: Vec<usize>,
}

fn all_places(alloc: Global, len: usize) -> Result<Vec<usize>, AllocError>
    ensures all { IfOk result (λ places. length places.items ≡ len) }
    ensures first { IfOk result (λ places. AreFirst places.items) }
{
    let mut places = Vec::with_capacity(alloc, len)?;
    for place in 0..len {
        places.push(place)?;
    }
    Ok(places)
}

impl Positions {
    /// So many entries, each at its first place.
    pub(crate) fn new(alloc: Global, len: usize) -> Result<Positions, AllocError>
        ensures inverse { IfOk result (λ positions. ArePositions len positions.entries.items positions.places.items) }
        ensures first { IfOk result (λ positions. AreFirst positions.entries.items) }
    {
        Ok(Positions {
            entries: all_places(alloc, len)?,
            places: all_places(alloc, len)?,
        })
    }

    /// Lets an entry and what is at a place change places, and says where the entry was.
    fn exchange(&mut self, place: usize, entry: usize) -> usize
        requires place_within { place < length self.old.entries.items }
        requires entry_within { entry < length self.old.entries.items }
        requires inverse { ArePositions (length self.old.entries.items) self.old.entries.items self.old.places.items }
        ensures inverse { ArePositions (length self.new.entries.items) self.new.entries.items self.new.places.items }
        ensures exchanged { IsExchange self.old.entries.items self.new.entries.items place entry result }
    {
        let from = self.places[entry];
        let other = self.entries[place];
        self.entries.swap(place, from);
        self.places.swap(entry, other);
        from
    }

    /// Brings an entry to a place, if both are there, and says where it was.
    fn bring(&mut self, place: usize, entry: usize) -> Option<usize>
        requires { ArePositions (length self.old.entries.items) self.old.entries.items self.old.places.items }
        ensures inverse { ArePositions (length self.new.entries.items) self.new.entries.items self.new.places.items }
        ensures exchanged { IfSome result (IsExchange self.old.entries.items self.new.entries.items place entry) }
        ensures unchanged { IfNone result (self.new.entries.items ≡ self.old.entries.items) }
        ensures missing { IfNone result (place < length self.old.entries.items → entry < length self.old.entries.items → ⊥) }
    {
        let len = self.entries.len();
        if place >= len {
            return None;
        }
        if entry >= len {
            return None;
        }
        Some(self.exchange(place, entry))
    }
}

/// Puts entries, which are at their first places, into another order.
pub(crate) fn put_in_order<E: Entries>(entries: &mut E, positions: Positions, order: Vec<usize>)
    requires inverse { ArePositions (length (E.entries entries.old)) positions.entries.items positions.places.items }
    requires first { AreFirst positions.entries.items }
    ensures { (now : List E.Entry) → IsOrder (E.entries entries.old) order.items now → E.entries entries.new ≡ now }
{
    let mut positions = positions;
    for place in 0..order.len() {
        match positions.bring(place, order[place]) {
            Some(from) => entries.exchange(place, from),
            None => {}
        }
    }
}
