//! Indexes that find entries by hashes of their keys.
ghost use Rattle.std.specs.Prelude.{◌≡◌, ◌<◌, ◌^◌, ◌++◌, ◌∷◌, ℕ, Some, None, IfOk, OnOk, IfSome, IfNone, [], IsSome, IsTrue, false, length, map, position};
ghost use Rattle.std.specs.Map.{keys_of};
ghost use Rattle.std.specs.BTreeMap as tree;
ghost use Rattle.wit_maps.specs.Indexed.{AreApart, IsFoundOrNew, IsIndexed, IsKept, IsKeptWith, IsKnown};
ghost use Rattle.wit_maps.specs.Slots.{AreFilled, IsAt, IsNotAt, IsNowhere, IsSightOf, key_hash_of, home_of};

use crate::slots::{NEAR, Sight, free_near, free_slots, home, is_at, key_hash, look, take};
use crate::sought::Sought;
use indexmap::Equivalent;
use std::alloc::{AllocError, Global};
use std::collections::BTreeMap;
use std::hash::Hash;

/// How many entries are looked through one by one.
pub(crate) const FEW: usize = 4;

/// One more than the last place that an entry may have.
const MOST: usize = u32::MAX as usize;

/// Where entries are.
///
/// Each place is in one of the few slots for the hash of its key, and where all of these are
/// taken, at the key itself in an ordered map: so no keys cost more than others. A place that was noted
/// for a key which did not come does no harm, since the key at a place is looked at.
#[derive(Drop)]
pub(crate) struct Index<K: Eq + Hash + Ord> {
    slots: Vec<u32>,
    keys: BTreeMap<K, usize>,
}

/// A place, if what means the key there is sought.
fn checked<K: Eq + Hash, V, Q: Equivalent<K>>(
    entries: &[(K, V)],
    place: Option<usize>,
    key: Q,
) -> Option<usize>
    ensures found { IfSome result (λ i. (place ≡ Some i) × IsAt (Q.equivalent key) (keys_of entries.now) i) }
    ensures missed { IfNone result ((i : ℕ) → place ≡ Some i → IsNotAt (Q.equivalent key) (keys_of entries.now) i) }
{
    let place = place?;
    if is_at(entries, place, key) {
        Some(place)
    } else {
        None
    }
}

/// What means a key: its place, or else the slot that is free for it, if one is.
fn sight_of<K: Eq + Hash + Ord, V, Q: Sought<K>>(
    entries: &[(K, V)],
    slots: &[u32],
    keys: &BTreeMap<K, usize>,
    home: usize,
    key: Q,
) -> Sight
    requires indexed { IsIndexed K.eq K.cmp K.hash_input slots.now keys.now (keys_of entries.now) }
    requires small { home < 2 ^ 63 }
    requires home { (k : K) → IsTrue (Q.equivalent key k) → home ≡ home_of (length slots.now) (key_hash_of (K.hash_input k)) }
    ensures { IsSightOf (Q.equivalent key) (keys_of entries.now) slots.now home result }
{
    match look(slots, entries, home, key) {
        Sight::Full => match checked(entries, key.place_in(keys), key) {
            Some(place) => Sight::Entry(place),
            None => Sight::Full,
        },
        Sight::Entry(place) => Sight::Entry(place),
        Sight::Room(slot) => Sight::Room(slot),
    }
}

/// The place of what means a key.
fn place_of<K: Eq + Hash + Ord, V, Q: Sought<K>>(
    entries: &[(K, V)],
    slots: &[u32],
    keys: &BTreeMap<K, usize>,
    key: Q,
) -> Option<usize>
    requires indexed { IsIndexed K.eq K.cmp K.hash_input slots.now keys.now (keys_of entries.now) }
    requires small { length slots.now < 2 ^ 63 }
    ensures { result ≡ position (Q.equivalent key) (keys_of entries.now) }
{
    let home = home(slots.len(), key_hash(&key));
    match sight_of(entries, slots, keys, home, key) {
        Sight::Entry(place) => Some(place),
        Sight::Room(_) => None,
        Sight::Full => None,
    }
}

/// Puts a place at a key in an ordered map.
fn keep<K: Eq + Hash + Ord + Clone + Drop>(
    keys: &mut BTreeMap<K, usize>,
    key: &K,
    place: usize,
) -> Result<(), AllocError>
    ensures kept { OnOk result (tree.get K.cmp keys.new key.now ≡ Some place) }
    ensures keys { (k : K) (j : ℕ) → K.eq key.now k ≡ false → tree.get K.cmp keys.old k ≡ Some j → tree.get K.cmp keys.new k ≡ Some j }
{
    let copy = key.clone()?;
    if copy != *key {
        return Err(AllocError);
    }
    keys.insert(copy, place)?;
    Ok(())
}

/// Notes the place of a key in a slot for its hash, and where none is free, at itself.
fn note<K: Eq + Hash + Ord + Clone + Drop>(
    slots: &mut Vec<u32>,
    keys: &mut BTreeMap<K, usize>,
    key: &K,
    place: usize,
) -> Result<(), AllocError>
    ensures len { length slots.new.items ≡ length slots.old.items }
    ensures filled { AreFilled slots.old.items slots.new.items }
    ensures keys { (k : K) (j : ℕ) → K.eq key.now k ≡ false → tree.get K.cmp keys.old k ≡ Some j → tree.get K.cmp keys.new k ≡ Some j }
    ensures noted { OnOk result (IsKnown K.cmp K.hash_input slots.new.items keys.new key.now place) }
{
    let home = home(slots.len(), key_hash(key));
    match free_near(slots, home) {
        Some(slot) => {
            if place >= MOST {
                return Err(AllocError);
            }
            take(slots, home, slot, place);
            Ok(())
        }
        None => keep(keys, key, place),
    }
}

/// An index of entries, with room for as many more and some.
fn index_of<K: Eq + Hash + Ord + Clone + Drop, V>(
    alloc: Global,
    entries: &[(K, V)],
) -> Result<Index<K>, AllocError>
    requires { AreApart K.eq (keys_of entries.now) }
    ensures { IfOk result (λ index. IsIndexed K.eq K.cmp K.hash_input index.slots.items index.keys (keys_of entries.now)) }
{
    if entries.len() > MOST {
        return Err(AllocError);
    }
    let mut slots = free_slots(alloc, 2 * entries.len() + NEAR)?;
    let mut keys = BTreeMap::new(alloc);
    for place in 0..entries.len() {
        note(&mut slots, &mut keys, &entries[place].0, place)?;
    }
    Ok(Index { slots, keys })
}

/// The place of what means a key, looked for from the first entry on.
fn place_among<K: Eq + Hash, V, Q: Equivalent<K>>(entries: &[(K, V)], key: Q) -> Option<usize>
    ensures found { IfSome result (IsAt (Q.equivalent key) (keys_of entries.now)) }
    ensures missed { IfNone result (IsNowhere (Q.equivalent key) (keys_of entries.now)) }
{
    for place in 0..entries.len() {
        if is_at(entries, place, key) {
            return Some(place);
        }
    }
    None
}

/// The place of what means a key among entries with an index, or without one.
pub(crate) fn place_in<K: Eq + Hash + Ord, V, Q: Sought<K>>(
    entries: &[(K, V)],
    index: &Option<Box<Index<K>>>,
    key: Q,
) -> Option<usize>
    requires kept { IsKept K.eq K.cmp K.hash_input (keys_of entries.now) index.now }
    ensures { result ≡ position (Q.equivalent key) (map (λ e. e.0) entries.now) }
{
    match index {
        Some(index) => place_of(entries, &index.slots, &index.keys, key),
        None => place_among(entries, key),
    }
}

/// The place of a key; or else the place after the last entry is noted for it.
fn find_or_note<K: Eq + Hash + Ord + Clone + Drop, V>(
    entries: &[(K, V)],
    index: &mut Index<K>,
    key: &K,
) -> Result<Option<usize>, AllocError>
    requires { IsIndexed K.eq K.cmp K.hash_input index.old.slots.items index.old.keys (keys_of entries.now) }
    ensures kept { IsIndexed K.eq K.cmp K.hash_input index.new.slots.items index.new.keys (keys_of entries.now) }
    ensures found { IfOk result (IsFoundOrNew K.eq K.cmp K.hash_input index.new.slots.items index.new.keys (keys_of entries.now) key.now) }
{
    let place = entries.len();
    if place >= MOST {
        return Err(AllocError);
    }
    let home = home(index.slots.len(), key_hash(key));
    match sight_of(entries, &index.slots, &index.keys, home, key) {
        Sight::Entry(at) => Ok(Some(at)),
        Sight::Room(slot) => {
            take(&mut index.slots, home, slot, place);
            Ok(None)
        }
        Sight::Full => {
            keep(&mut index.keys, key, place)?;
            Ok(None)
        }
    }
}

/// Whether there is an index with room for one more than so many entries.
fn has_room<K: Eq + Hash + Ord>(entries: usize, index: &Option<Box<Index<K>>>) -> bool
    ensures { IsTrue result → IsSome index.now }
{
    match index {
        Some(index) => index.slots.len() / 2 >= entries.saturating_add(NEAR),
        None => false,
    }
}

/// Whether so many entries are looked through one by one.
fn is_looked_through<K: Eq + Hash + Ord>(entries: usize, index: &Option<Box<Index<K>>>) -> bool
    ensures { IsTrue result → index.now ≡ None }
{
    entries < FEW && index.is_none()
}

/// Sees to an index with room for one more entry.
fn make_room<K: Eq + Hash + Ord + Clone + Drop, V>(
    alloc: Global,
    entries: &[(K, V)],
    index: &mut Option<Box<Index<K>>>,
) -> Result<(), AllocError>
    requires { IsKept K.eq K.cmp K.hash_input (keys_of entries.now) index.old }
    ensures kept { IsKept K.eq K.cmp K.hash_input (keys_of entries.now) index.new }
    ensures made { OnOk result (IsSome index.new) }
{
    if !has_room(entries.len(), index) {
        *index = Some(Box::new(alloc, index_of(alloc, entries)?)?);
    }
    Ok(())
}

/// An index of no entries, with room for so many.
pub(crate) fn empty_index<K: Eq + Hash + Ord + Drop>(
    alloc: Global,
    entries: usize,
) -> Result<Option<Box<Index<K>>>, AllocError>
    ensures { IfOk result (IsKept K.eq K.cmp K.hash_input []) }
{
    if entries <= FEW {
        return Ok(None);
    }
    if entries > MOST {
        return Err(AllocError);
    }
    let slots = free_slots(alloc, entries)?;
    let index = Box::new(
        alloc,
        Index {
            slots,
            keys: BTreeMap::new(alloc),
        },
    )?;
    Ok(Some(index))
}

/// An index of entries, or none where they are few.
pub(crate) fn index_for<K: Eq + Hash + Ord + Clone + Drop, V>(
    alloc: Global,
    entries: &[(K, V)],
) -> Result<Option<Box<Index<K>>>, AllocError>
    requires { AreApart K.eq (keys_of entries.now) }
    ensures { IfOk result (IsKept K.eq K.cmp K.hash_input (keys_of entries.now)) }
{
    if entries.len() <= FEW {
        return Ok(None);
    }
    let index = index_of(alloc, entries)?;
    Ok(Some(Box::new(alloc, index)?))
}

/// The place of a key among entries with an index, or without one; or else the place after the last
/// entry is noted for it. Where there is no index with room for it, one is made if there are more than
/// a few entries.
pub(crate) fn place_or_note<K: Eq + Hash + Ord + Clone + Drop, V>(
    alloc: Global,
    entries: &[(K, V)],
    index: &mut Option<Box<Index<K>>>,
    key: &K,
) -> Result<Option<usize>, AllocError>
    requires { IsKept K.eq K.cmp K.hash_input (keys_of entries.now) index.old }
    ensures kept { IsKept K.eq K.cmp K.hash_input (keys_of entries.now) index.new }
    ensures found { IfOk result (IsKeptWith K.eq K.cmp K.hash_input (keys_of entries.now) key.now index.new) }
{
    if is_looked_through(entries.len(), index) {
        return Ok(place_among(entries, key));
    }
    make_room(alloc, entries, index)?;
    match index {
        Some(index) => find_or_note(entries, index, key),
        None => unreachable!(),
    }
}
