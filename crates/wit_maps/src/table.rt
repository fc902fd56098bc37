//! Maps in insertion order, which contracts see as the list of their entries.
ghost use Rattle.std.specs.Prelude.{◌≡◌, ◌<◌, ◌≤◌, ◌++◌, ◌∷◌, Some, None, IfOk, OnOk, OnErr, IfErr, IfNone, IfSome, [], length, map, position, slice_get, swap};
ghost use Rattle.std.specs.List.{AllZip, list_all};
ghost use Rattle.std.specs.HashMap.{entries_eq};
ghost use Rattle.std.specs.Map.{lookup, lookup_entry, keys_of};
ghost use Rattle.std.specs.Option.{option_copied, option_eq, option_map};
ghost use Rattle.std.specs.Map.Iter.{deref_pair};
ghost use Rattle.std.specs.HashMap.Eq.{hash_map_eq_symm, hash_map_eq_trans, hash_map_eq_refl};
ghost use Rattle.std.specs.Cmp.{equiv, partial_equiv_from_equiv};
ghost use Rattle.indexmap.specs.Layout.{hash_map, set_value_at};
ghost use Rattle.indexmap.specs.IndexMap.{insert_entry};
ghost use Rattle.wit_maps.specs.Indexed.{AreApart};

use crate::index::{Index, empty_index, index_for, place_in, place_or_note};
use crate::index_maps::{entries_of, index_map_of};
use crate::sought::Sought;
use indexmap::IndexMap;
use std::alloc::{AllocError, AllocFailed, Global};
use std::fmt;
use std::hash::Hash;
use std::marker::Model;
use std::mem::replace;

/// A map in insertion order, which contracts see as its entries.
///
/// Where its entries are few, they are looked through one by one: most maps have few, and then take one
/// list and no more. More are found by an index, in which no keys cost more than others. There are fewer
/// than 2^32; one more is refused like a failed allocation. Two maps are equal if they hold the same pairs, in
/// any order; a copy has its source's order too.
pub struct Table<K: Eq + Hash + Ord, V> {
    entries: Vec<(K, V)>,
    index: Option<Box<Index<K>>>,
}

impl<K: Eq + Hash + Ord + Drop, V: Drop> Drop for Table<K, V> {
    fn drop(self) {
        let Table {
            entries: _,
            index: _,
        } = self;
    }
}

impl<K: Eq + Hash + Ord, V> Model for Table<K, V> {
    ghost use Rattle.std.specs.Prelude.{List};
    ghost use Rattle.std.specs.Map.{keys_of};
    ghost use Rattle.wit_maps.specs.Indexed.{IsKept};

    ghost Value = { List (K × V) };

    ghost view = { λ t. t.entries.items };

    ghost invariant = { λ t. IsKept K.eq K.cmp K.hash_input (keys_of t.entries.items) t.index };
}

impl<K: Eq + Hash + Ord, V> Table<K, V> {
    ghost use Rattle.std.specs.Borrow.{sem, Lends};
    ghost use Rattle.wit_maps.specs.contracts.table.Table.{the_row};

    /// A map with nothing in it.
    pub fn new(alloc: Global) -> Table<K, V>
        ensures { result ≡ [] }
    {
        Table {
            entries: Vec::new(alloc),
            index: None,
        }
    }

    /// A map with nothing in it, and with room for as many entries.
    pub fn with_capacity(alloc: Global, entries: usize) -> Result<Table<K, V>, AllocError>
    where
        K: Drop,
        V: Drop,
        ensures { IfOk result (λ table. table ≡ []) }
    {
        Ok(Table {
            entries: Vec::with_capacity(alloc, entries)?,
            index: empty_index(alloc, entries)?,
        })
    }

    /// The map of these entries, in their order; no two of them have equal keys.
    pub fn from_entries(alloc: Global, entries: Vec<(K, V)>) -> Result<Table<K, V>, AllocError>
    where
        K: Clone + Drop,
        V: Drop,
        requires { AreApart K.eq (keys_of entries.items) }
        ensures { IfOk result (λ table. table ≡ entries.items) }
    {
        let index = index_for(alloc, &entries)?;
        Ok(Table { entries, index })
    }

    /// The entries of an [`IndexMap`], in their order.
    ///
    /// Allocation is needed, since the maps keep their entries in different ways. If it fails, the entries
    /// are dropped.
    pub fn from_index_map(map: IndexMap<K, V>) -> Result<Table<K, V>, AllocError>
    where
        K: Clone + Drop,
        V: Drop,
        ensures { IfOk result (λ table. table ≡ map.entries) }
    {
        let alloc = *map.allocator();
        let entries = entries_of(alloc, map)?;
        let table = Table::from_entries(alloc, entries)?;
        Ok(table)
    }

    /// The allocator of the map.
    pub fn allocator(&self) -> &Global {
        self.entries.allocator()
    }

    /// How many entries there are.
    pub fn len(&self) -> usize
        ensures { result ≡ length self.now }
    {
        self.entries.len()
    }

    /// The entries, in their order.
    pub(crate) fn as_slice(&self) -> &[(K, V)]
        ensures { result.now ≡ self.now }
    {
        self.entries.as_slice()
    }

    /// The place of what means a key, counted from 0 in insertion order, if it has one.
    pub fn get_index_of<Q: Sought<K>>(&self, key: Q) -> Option<usize>
        ensures { result ≡ position (Q.equivalent key) (map (λ e. e.0) self.now) }
    {
        place_in(&self.entries, &self.index, key)
    }

    /// The value at what means a key, if there is one.
    pub fn get_by<Q: Sought<K>>(&self, key: Q) -> Option<&V>
        ensures { option_copied result ≡ lookup (Q.equivalent key) self.now }
    {
        match self.get_index_of(key) {
            Some(place) => Some(&self.entries[place].1),
            None => None,
        }
    }

    /// The value at a key, if there is one.
    pub fn get(&self, key: &K) -> Option<&V>
        ensures { option_copied result ≡ lookup (K.eq key.now) self.now }
    {
        self.get_by(key)
    }

    /// The entry at a place, counted from 0 in insertion order; `None` after the last.
    pub fn get_index(&self, place: usize) -> Option<(&K, &V)>
        ensures { option_map deref_pair result ≡ slice_get self.now place }
    {
        match self.entries.get(place) {
            Some(entry) => Some((&entry.0, &entry.1)),
            None => None,
        }
    }

    /// The value at a place, to be written; keys, order and other values stay.
    pub fn value_mut(&mut self, place: usize) -> &mut V
        requires { place < length self.old }
        ensures* writes_back { sem 𝓛 (Lends (the_row K.row V.row K.PartialEq (record { hash_input = K.hash_input }) (record { cmp = K.cmp }) (record { partial_cmp = K.partial_cmp })) V.row self.entry result (set_value_at self.old place)) }
        ensures value { option_map (λ e. e.1) (slice_get self.old place) ≡ Some result.now }
    {
        &mut self.entries[place].1
    }

    /// Puts a value at a key and gives back the one that was there.
    ///
    /// A new key comes last, one that is there keeps its place. If a growth is refused, the
    /// map stays as it was.
    pub fn insert(&mut self, key: K, value: V) -> Result<Option<V>, AllocFailed<(K, V)>>
    where
        K: Clone + Drop,
        V: Drop,
        ensures ok { OnOk result (self.new ≡ insert_entry K.eq self.old key value) }
        ensures was { IfOk result (λ was. was ≡ lookup (K.eq key) self.old) }
        ensures err { OnErr result (self.new ≡ self.old) }
        ensures value_returned { IfErr result (λ e. e.value ≡ (key, value)) }
    {
        let alloc = *self.entries.allocator();
        if self.entries.reserve(1).is_err() {
            return Err(AllocFailed {
                value: (key, value),
            });
        }
        match place_or_note(alloc, &self.entries, &mut self.index, &key) {
            Ok(Some(place)) => Ok(Some(replace(&mut self.entries[place].1, value))),
            Ok(None) => {
                self.entries.push_reserved((key, value));
                Ok(None)
            }
            Err(_) => Err(AllocFailed {
                value: (key, value),
            }),
        }
    }

    /// Puts a value at a key and drops the one that was there.
    ///
    /// If a growth is refused, the map stays as it was.
    pub fn put(&mut self, key: K, value: V) -> Result<(), AllocError>
    where
        K: Clone + Drop,
        V: Drop,
        ensures ok { OnOk result (self.new ≡ insert_entry K.eq self.old key value) }
        ensures err { OnErr result (self.new ≡ self.old) }
    {
        let alloc = *self.entries.allocator();
        self.entries.reserve(1)?;
        match place_or_note(alloc, &self.entries, &mut self.index, &key)? {
            Some(place) => self.entries[place].1 = value,
            None => self.entries.push_reserved((key, value)),
        }
        Ok(())
    }

    /// Puts a value at a new key, after the others; where the key is there, the map stays as it was and
    /// its place is stated.
    ///
    /// If a growth is refused, the map stays as it was.
    pub fn put_new(&mut self, key: K, value: V) -> Result<Option<usize>, AllocError>
    where
        K: Clone + Drop,
        V: Drop,
        ensures place { IfOk result (λ place. place ≡ position (K.eq key) (map (λ e. e.0) self.old)) }
        ensures fresh { IfOk result (λ place. IfNone place (self.new ≡ self.old ++ (key, value) ∷ [])) }
        ensures there { IfOk result (λ place. IfSome place (λ i. self.new ≡ self.old)) }
        ensures err { OnErr result (self.new ≡ self.old) }
    {
        let alloc = *self.entries.allocator();
        self.entries.reserve(1)?;
        match place_or_note(alloc, &self.entries, &mut self.index, &key)? {
            Some(place) => Ok(Some(place)),
            None => {
                self.entries.push_reserved((key, value));
                Ok(None)
            }
        }
    }

    /// Lets the entries at two places change places.
    ///
    /// After it, keys are looked up one by one: call [`Table::reindex`] when the order is as it should be.
    pub fn swap_indices(&mut self, one: usize, other: usize)
    where
        K: Drop,
        requires one { one < length self.old }
        requires other { other < length self.old }
        ensures { self.new ≡ swap self.old one other }
    {
        self.index = None;
        self.entries.swap(one, other);
    }

    /// Makes the index anew, after entries changed places. Where its allocation fails, there is none, and
    /// keys are looked up one by one until the next insertion.
    pub fn reindex(&mut self)
    where
        K: Clone + Drop,
        ensures { self.new ≡ self.old }
    {
        let alloc = *self.entries.allocator();
        if let Ok(index) = index_for(alloc, &self.entries) {
            self.index = index;
        }
    }

    /// The map with no more room than it takes.
    pub fn shrunk(self) -> Table<K, V>
        ensures { result ≡ self }
    {
        let mut shrunk = self;
        shrunk.entries.shrink_to_fit();
        shrunk
    }

    /// The entries in their order, moved out of the map.
    pub fn into_entries(self) -> Vec<(K, V)>
    where
        K: Drop,
        ensures { result.items ≡ self }
    {
        let Table { entries, index: _ } = self;
        entries
    }

    /// The entries as an [`IndexMap`], in their order.
    ///
    /// Allocation is needed, since the maps keep their entries in different ways. If it fails, the entries
    /// are dropped.
    pub fn into_index_map(self) -> Result<IndexMap<K, V>, AllocError>
    where
        K: Drop,
        V: Drop,
        ensures { IfOk result (λ map. map.entries ≡ self) }
    {
        let Table { entries, index: _ } = self;
        index_map_of(entries)
    }
}

/// Whether a key has equal values in two maps, or none in both.
fn agree_at<K: Eq + Hash + Ord, V: PartialEq>(
    one: &Table<K, V>,
    other: &Table<K, V>,
    key: &K,
) -> bool
    ensures { result ≡ option_eq {T = K × V} (λ p q. V.eq p.1 q.1) (lookup_entry (K.eq key.now) one.now) (lookup_entry (K.eq key.now) other.now) }
{
    one.get(key) == other.get(key)
}

/// Whether each key of a map has equal values in two maps, or none in both.
fn agree<K: Eq + Hash + Ord, V: PartialEq>(
    keys: &Table<K, V>,
    one: &Table<K, V>,
    other: &Table<K, V>,
) -> bool
    ensures { result ≡ list_all (λ k. option_eq {T = K × V} (λ p q. V.eq p.1 q.1) (lookup_entry (K.eq k) one.now) (lookup_entry (K.eq k) other.now)) (keys_of keys.now) }
{
    for place in 0..keys.len() {
        if let Some((key, _)) = keys.get_index(place) {
            if !agree_at(one, other, key) {
                return false;
            }
        }
    }
    true
}

/// Puts an entry after the others; a failed allocation, or a key that is there, is refused.
fn append<K: Eq + Hash + Ord + Clone + Drop, V: Drop>(
    table: &mut Table<K, V>,
    key: K,
    value: V,
) -> Result<(), AllocError>
    ensures { OnOk result (table.new ≡ table.old ++ (key, value) ∷ []) }
{
    match table.put_new(key, value)? {
        Some(_) => Err(AllocError),
        None => Ok(()),
    }
}

impl<K: Eq + Hash + Ord + Clone, V: Clone> Clone for Table<K, V> {
    ghost is_clone = { AllZip (λ p q. K.is_clone p.0 q.0 × V.is_clone p.1 q.1) };

    /// A copy. It is refused where copies of two keys are equal, which no key here has.
    fn clone(&self) -> Result<Table<K, V>, AllocError> {
        let copies = self.entries.clone()?;
        let mut copy = Table::with_capacity(*self.entries.allocator(), copies.len())?;
        for (key, value) in copies {
            append(&mut copy, key, value)?;
        }
        Ok(copy)
    }
}

impl<K: Eq + Hash + Ord, V: PartialEq> PartialEq for Table<K, V> {
    ghost eq = { entries_eq K.eq (λ p q. V.eq p.1 q.1) };

    ghost laws = { let v = V.laws in record { symm = λ a b. hash_map_eq_symm K.eq V.eq v.symm (hash_map {S = Unit {0}} a tt 0) (hash_map {S = Unit {0}} b tt 0); trans = λ a b c. hash_map_eq_trans K.eq V.eq K.Eq.laws v.trans (hash_map {S = Unit {0}} a tt 0) (hash_map {S = Unit {0}} b tt 0) (hash_map {S = Unit {0}} c tt 0) } };

    fn eq(&self, other: &Table<K, V>) -> bool {
        agree(self, self, other) && agree(other, self, other)
    }
}

impl<K: Eq + Hash + Ord + fmt::Debug, V: fmt::Debug> fmt::Debug for Table<K, V> {
    fn fmt<W: fmt::Write>(&self, f: &mut fmt::Formatter<W>) -> fmt::Result {
        let mut out = f.debug_map();
        for place in 0..self.len() {
            if let Some((key, value)) = self.get_index(place) {
                out.entry(key, value);
            }
        }
        out.finish()
    }
}

impl<K: Eq + Hash + Ord, V: Eq> Eq for Table<K, V> {
    ghost laws = { let v = V.Eq.laws in equiv (record { symm = λ a b. hash_map_eq_symm K.eq V.eq v.symm (hash_map {S = Unit {0}} a tt 0) (hash_map {S = Unit {0}} b tt 0); trans = λ a b c. hash_map_eq_trans K.eq V.eq K.Eq.laws (partial_equiv_from_equiv v).trans (hash_map {S = Unit {0}} a tt 0) (hash_map {S = Unit {0}} b tt 0) (hash_map {S = Unit {0}} c tt 0) }) (λ a. hash_map_eq_refl K.eq V.eq v.refl (hash_map {S = Unit {0}} a tt 0)) };
}
