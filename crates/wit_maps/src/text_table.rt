//! Maps from texts in insertion order, which contracts see as the list of their entries.
ghost use Rattle.std.specs.Prelude.{◌≡◌, ◌<◌, Some, OnOk, OnErr, IfErr, IfOk, [], nat_eq, string_bytes, length, map, position, slice_get, swap};
ghost use Rattle.std.specs.Cmp.Lexicographic.{pointwise, nat_list_eq_equiv};
ghost use Rattle.std.specs.Cmp.{equiv, partial_equiv_from_equiv};
ghost use Rattle.std.specs.HashMap.{entries_eq};
ghost use Rattle.std.specs.HashMap.Eq.{hash_map_eq_symm, hash_map_eq_trans, hash_map_eq_refl};
ghost use Rattle.std.specs.List.{AllZip};
ghost use Rattle.std.specs.Map.{lookup};
ghost use Rattle.std.specs.Option.{option_copied, option_map};
ghost use Rattle.indexmap.specs.IndexMap.{insert_entry};
ghost use Rattle.indexmap.specs.Layout.{hash_map, set_value_at};
ghost use Rattle.wit_maps.specs.TextEntries.{text_entries};

use crate::table::Table;
use indexmap::IndexMap;
use std::alloc::{AllocError, AllocFailed, Global};
use std::fmt;
use std::marker::Model;

/// A map from texts in insertion order, which contracts see as its entries.
///
/// Two are equal if they hold the same pairs, in any order; a copy has its source's order too.
pub struct TextTable<V> {
    table: Table<String, V>,
}

impl<V: Drop> Drop for TextTable<V> {
    fn drop(self) {
        let TextTable { table: _ } = self;
    }
}

impl<V> Model for TextTable<V> {
    ghost use Rattle.std.specs.Prelude.{ℕ, List};
    ghost use Rattle.wit_maps.specs.TextEntries.{text_entries};

    ghost Value = { List (List ℕ × V) };

    ghost view = { λ t. text_entries t.table };
}

impl<V> TextTable<V> {
    ghost use Rattle.std.specs.Borrow.{sem, Lends};
    ghost use Rattle.wit_maps.specs.contracts.text_table.TextTable.{the_row};

    /// A map with nothing in it.
    pub fn new(alloc: Global) -> TextTable<V>
        ensures { result ≡ [] }
    {
        TextTable {
            table: Table::new(alloc),
        }
    }

    /// A map with nothing in it, and with room for as many entries.
    pub fn with_capacity(alloc: Global, entries: usize) -> Result<TextTable<V>, AllocError>
    where
        V: Drop,
        ensures { IfOk result (λ table. table ≡ []) }
    {
        let table = Table::with_capacity(alloc, entries)?;
        Ok(TextTable { table })
    }

    /// The entries of an [`IndexMap`], in their order.
    ///
    /// Allocation is needed, as for [`Table::from_index_map`]. If it fails, the entries are dropped.
    pub fn from_index_map(map: IndexMap<String, V>) -> Result<TextTable<V>, AllocError>
    where
        V: Drop,
        ensures { IfOk result (λ table. table ≡ text_entries map.entries) }
    {
        let table = Table::from_index_map(map)?;
        Ok(TextTable { table })
    }

    /// The allocator of the map.
    pub fn allocator(&self) -> &Global {
        self.table.allocator()
    }

    /// How many entries there are.
    pub fn len(&self) -> usize
        ensures { result ≡ length self.now }
    {
        self.table.len()
    }

    /// The same, by texts of its own.
    pub(crate) fn table(&self) -> &Table<String, V>
        ensures { text_entries result.now ≡ self.now }
    {
        &self.table
    }

    /// The place of a text, counted from 0 in insertion order, if it has one.
    pub fn get_index_of(&self, key: &str) -> Option<usize>
        ensures { result ≡ position (pointwise nat_eq key.now) (map (λ e. e.0) self.now) }
    {
        self.table.get_index_of(key)
    }

    /// The value at a text, if there is one.
    pub fn get(&self, key: &str) -> Option<&V>
        ensures { option_copied result ≡ lookup (pointwise nat_eq key.now) self.now }
    {
        self.table.get_by(key)
    }

    /// The entry at a place, counted from 0 in insertion order; `None` after the last.
    pub fn get_index(&self, place: usize) -> Option<(&str, &V)>
        ensures { option_map (λ p. (p.0.now, p.1.now)) result ≡ slice_get self.now place }
    {
        match self.table.get_index(place) {
            Some((key, value)) => Some((key.as_str(), value)),
            None => None,
        }
    }

    /// The value at a place, to be written; texts, order and other values stay.
    pub fn value_mut(&mut self, place: usize) -> &mut V
        requires { place < length self.old }
        ensures* writes_back { sem 𝓛 (Lends (the_row V.row) V.row self.entry result (set_value_at self.old place)) }
        ensures value { option_map (λ e. e.1) (slice_get self.old place) ≡ Some result.now }
    {
        self.table.value_mut(place)
    }

    /// Puts a value at a text and gives back the one that was there.
    ///
    /// A new text comes last, one that is there keeps its place. If a growth is refused, the
    /// map stays as it was.
    pub fn insert(&mut self, key: String, value: V) -> Result<Option<V>, AllocFailed<(String, V)>>
    where
        V: Drop,
        ensures ok { OnOk result (self.new ≡ insert_entry (pointwise nat_eq) self.old (string_bytes key) value) }
        ensures was { IfOk result (λ was. was ≡ lookup (pointwise nat_eq (string_bytes key)) self.old) }
        ensures err { OnErr result (self.new ≡ self.old) }
        ensures value_returned { IfErr result (λ e. e.value ≡ (key, value)) }
    {
        self.table.insert(key, value)
    }

    /// Puts a value at a text and drops the one that was there.
    ///
    /// If a growth is refused, the map stays as it was.
    pub fn put(&mut self, key: String, value: V) -> Result<(), AllocError>
    where
        V: Drop,
        ensures ok { OnOk result (self.new ≡ insert_entry (pointwise nat_eq) self.old (string_bytes key) value) }
        ensures err { OnErr result (self.new ≡ self.old) }
    {
        self.table.put(key, value)
    }

    /// Lets the entries at two places change places.
    ///
    /// After it, texts are looked up one by one: call [`TextTable::reindex`] when the order is as it should
    /// be.
    pub fn swap_indices(&mut self, one: usize, other: usize)
        requires one { one < length self.old }
        requires other { other < length self.old }
        ensures { self.new ≡ swap self.old one other }
    {
        self.table.swap_indices(one, other);
    }

    /// Makes the index anew, after entries changed places, as [`Table::reindex`] does.
    pub fn reindex(&mut self)
        ensures { self.new ≡ self.old }
    {
        self.table.reindex();
    }

    /// The map with no more room than it takes.
    pub fn shrunk(self) -> TextTable<V>
        ensures { result ≡ self }
    {
        let TextTable { table } = self;
        TextTable {
            table: table.shrunk(),
        }
    }

    /// The entries in their order, moved out of the map.
    pub fn into_entries(self) -> Vec<(String, V)>
        ensures { text_entries result.items ≡ self }
    {
        let TextTable { table } = self;
        table.into_entries()
    }

    /// The entries as an [`IndexMap`], in their order.
    ///
    /// Allocation is needed, as for [`Table::into_index_map`]. If it fails, the entries are dropped.
    pub fn into_index_map(self) -> Result<IndexMap<String, V>, AllocError>
    where
        V: Drop,
        ensures { IfOk result (λ map. text_entries map.entries ≡ self) }
    {
        let TextTable { table } = self;
        table.into_index_map()
    }
}

impl<V: Clone> Clone for TextTable<V> {
    ghost is_clone = { AllZip (λ p q. (q.0 ≡ p.0) × V.is_clone p.1 q.1) };

    fn clone(&self) -> Result<TextTable<V>, AllocError> {
        Ok(TextTable {
            table: self.table.clone()?,
        })
    }
}

impl<V: fmt::Debug> fmt::Debug for TextTable<V> {
    fn fmt<W: fmt::Write>(&self, f: &mut fmt::Formatter<W>) -> fmt::Result {
        fmt::Debug::fmt(&self.table, f)
    }
}

impl<V: PartialEq> PartialEq for TextTable<V> {
    ghost eq = { entries_eq (pointwise nat_eq) (λ p q. V.eq p.1 q.1) };

    ghost laws = { let v = V.laws in record { symm = λ a b. hash_map_eq_symm (pointwise nat_eq) V.eq v.symm (hash_map {S = Unit {0}} a tt 0) (hash_map {S = Unit {0}} b tt 0); trans = λ a b c. hash_map_eq_trans (pointwise nat_eq) V.eq nat_list_eq_equiv v.trans (hash_map {S = Unit {0}} a tt 0) (hash_map {S = Unit {0}} b tt 0) (hash_map {S = Unit {0}} c tt 0) } };

    fn eq(&self, other: &TextTable<V>) -> bool {
        self.table == other.table
    }
}

impl<V: Eq> Eq for TextTable<V> {
    ghost laws = { let v = V.Eq.laws in equiv (record { symm = λ a b. hash_map_eq_symm (pointwise nat_eq) V.eq v.symm (hash_map {S = Unit {0}} a tt 0) (hash_map {S = Unit {0}} b tt 0); trans = λ a b c. hash_map_eq_trans (pointwise nat_eq) V.eq nat_list_eq_equiv (partial_equiv_from_equiv v).trans (hash_map {S = Unit {0}} a tt 0) (hash_map {S = Unit {0}} b tt 0) (hash_map {S = Unit {0}} c tt 0) }) (λ a. hash_map_eq_refl (pointwise nat_eq) V.eq v.refl (hash_map {S = Unit {0}} a tt 0)) };
}
