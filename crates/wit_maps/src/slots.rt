//! Slots in which places are near the hashes of what is there.
ghost use Rattle.std.specs.Prelude.{◌≡◌, ◌⊎◌, ◌<◌, ◌^◌, ◌+◌, ◌-◌, ℕ, IfOk, IfSome, IfNone, length};
ghost use Rattle.std.specs.Bool.{MatchBool};
ghost use Rattle.std.specs.Map.{keys_of};
ghost use Rattle.wit_maps.specs.Slots.{key_hash_of, AreFilled, AreFree, IsAt, IsNotAt, IsFull, IsNear, IsRoom, IsSight, home_of};

use indexmap::Equivalent;
use std::alloc::{AllocError, Global};
use std::hash::{FoldHasher, Hash, Hasher};

/// How many slots are looked at for a hash.
pub(crate) const NEAR: usize = 8;

/// What the slots for a hash say of a key.
pub(crate) enum Sight {
    /// It is at this place.
    Entry(usize),
    /// It is not in these slots, of which this one is free.
    Room(usize),
    /// It is not in these slots, and none is free.
    Full,
}

/// A number made of a key, which two keys seldom share.
pub(crate) fn key_hash<Q: Hash>(key: &Q) -> u64
    ensures { result ≡ key_hash_of (Q.hash_input key.now) }
{
    let mut hasher = FoldHasher::default();
    key.hash(&mut hasher);
    hasher.finish()
}

/// The first of the slots for a hash.
pub(crate) fn home(len: usize, key_hash: u64) -> usize
    requires { len < 2 ^ 63 }
    ensures home { result ≡ home_of len key_hash }
    ensures small { result < 2 ^ 63 }
{
    if len > NEAR {
        key_hash as usize % (len - NEAR)
    } else {
        0
    }
}

/// As many free slots as are well for a number of entries.
pub(crate) fn free_slots(alloc: Global, entries: usize) -> Result<Vec<u32>, AllocError>
    requires { entries < 2 ^ 60 }
    ensures { IfOk result (λ slots. AreFree slots.items) }
{
    vec![in alloc; 0; 2 * entries + NEAR + 8]
}

/// Whether what means a key is at a place.
pub(crate) fn is_at<K: Eq + Hash, V, Q: Equivalent<K>>(
    entries: &[(K, V)],
    place: usize,
    key: Q,
) -> bool
    ensures { MatchBool result (IsAt (Q.equivalent key) (keys_of entries.now) place) (IsNotAt (Q.equivalent key) (keys_of entries.now) place) }
{
    match entries.get(place) {
        Some(entry) => key.equivalent(&entry.0),
        None => false,
    }
}

/// What the slots from one on say of a key.
pub(crate) fn look<K: Eq + Hash, V, Q: Equivalent<K>>(
    slots: &[u32],
    entries: &[(K, V)],
    home: usize,
    key: Q,
) -> Sight
    requires { home < 2 ^ 63 }
    ensures { IsSight (Q.equivalent key) (keys_of entries.now) slots.now home result }
{
    for step in 0..NEAR {
        if let Some(in_use) = slots.get(home + step) {
            if *in_use == 0 {
                return Sight::Room(home + step);
            }
            let place = *in_use as usize - 1;
            if is_at(entries, place, key) {
                return Sight::Entry(place);
            }
        }
    }
    Sight::Full
}

/// The first free slot from one on, if one of them is free.
pub(crate) fn free_near(slots: &[u32], home: usize) -> Option<usize>
    requires { home < 2 ^ 63 }
    ensures room { IfSome result (IsRoom slots.now home) }
    ensures full { IfNone result (IsFull slots.now home) }
{
    for step in 0..NEAR {
        if let Some(in_use) = slots.get(home + step) {
            if *in_use == 0 {
                return Some(home + step);
            }
        }
    }
    None
}

/// Puts a place into a free slot.
pub(crate) fn take(slots: &mut Vec<u32>, home: usize, slot: usize, place: usize)
    requires room { IsRoom slots.old.items home slot }
    requires small { place < 2 ^ 32 - 1 }
    ensures len { length slots.new.items ≡ length slots.old.items }
    ensures filled { AreFilled slots.old.items slots.new.items }
    ensures here { IsNear slots.new.items home place }
{
    slots[slot] = place as u32 + 1;
}
