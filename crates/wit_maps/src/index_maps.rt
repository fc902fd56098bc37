//! Entries that come out of an [`IndexMap`], and go into one.
ghost use Rattle.std.specs.Prelude.{◌≡◌, IfOk};
ghost use Rattle.std.specs.Map.{keys_of};
ghost use Rattle.wit_maps.specs.Indexed.{AreApart};

use indexmap::IndexMap;
use std::alloc::{AllocError, Global};
use std::hash::Hash;

/// The entries of a map, moved out of it in their order.
pub(crate) fn entries_of<K: Eq + Hash + Drop, V: Drop>(
    alloc: Global,
    map: IndexMap<K, V>,
) -> Result<Vec<(K, V)>, AllocError>
    ensures entries { IfOk result (λ entries. entries.items ≡ map.entries) }
    ensures apart { IfOk result (λ entries. AreApart K.eq (keys_of entries.items)) }
{
    let mut entries = Vec::with_capacity(alloc, map.len())?;
    for entry in map {
        entries.push(entry)?;
    }
    Ok(entries)
}

/// The map of these entries, in their order; no two of them have equal keys.
pub(crate) fn index_map_of<K: Eq + Hash + Drop, V: Drop>(
    entries: Vec<(K, V)>,
) -> Result<IndexMap<K, V>, AllocError>
    requires { AreApart K.eq (keys_of entries.items) }
    ensures { IfOk result (λ map. map.entries ≡ entries.items) }
{
    let alloc = *entries.allocator();
    let mut map = IndexMap::with_capacity(alloc, entries.len())?;
    for (key, value) in entries {
        map.insert(key, value)?;
    }
    Ok(map)
}
