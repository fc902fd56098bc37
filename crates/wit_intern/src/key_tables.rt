//! A table that hashes its keys, and one that orders them.
ghost use Rattle.std.specs.Prelude.{◌≡◌, Some, if◌then◌else◌, OnOk, OnErr, IfErr};
ghost use Rattle.std.specs.HashMap as hash;
ghost use Rattle.std.specs.BTreeMap as tree;

use crate::key::InternKey;
use crate::type_table::InternTable;
use std::alloc::AllocFailed;
use std::collections::{BTreeMap, HashMap};
use std::hash::Hash;
use wit_types::TypeId;

fn set_hashed<K: Eq + Hash + Drop>(
    map: &mut HashMap<K, TypeId>,
    key: K,
    id: TypeId,
) -> Result<(), AllocFailed<K>>
    ensures set { OnOk result ((q : K) → hash.get K.eq map.new q ≡ (if K.eq key q then Some id else hash.get K.eq map.old q)) }
    ensures refused { OnErr result (map.new.entries ≡ map.old.entries) }
    ensures key_returned { IfErr result (λ e. e.value ≡ key) }
{
    match map.insert(key, id) {
        Ok(_) => Ok(()),
        Err(failed) => Err(AllocFailed {
            value: failed.value.0,
        }),
    }
}

fn set_ordered<K: Ord + Drop>(
    map: &mut BTreeMap<K, TypeId>,
    key: K,
    id: TypeId,
) -> Result<(), AllocFailed<K>>
    ensures set { OnOk result ((q : K) → tree.get K.cmp map.new q ≡ (if K.eq key q then Some id else tree.get K.cmp map.old q)) }
    ensures refused { OnErr result (map.new.entries ≡ map.old.entries) }
    ensures key_returned { IfErr result (λ e. e.value ≡ key) }
{
    match map.insert(key, id) {
        Ok(_) => Ok(()),
        Err(failed) => Err(AllocFailed {
            value: failed.value.0,
        }),
    }
}

impl InternTable for HashMap<InternKey, TypeId> {
    ghost content = { λ m. hash.get ⟦<InternKey as PartialEq>⟧.eq m };

    fn find(&self, key: &InternKey) -> Option<TypeId> {
        self.get(key).copied()
    }

    fn insert(&mut self, key: InternKey, id: TypeId) -> Result<(), AllocFailed<InternKey>> {
        set_hashed(self, key, id)
    }
}

impl InternTable for BTreeMap<InternKey, TypeId> {
    ghost content = { λ m. tree.get ⟦<InternKey as Ord>⟧.cmp m };

    fn find(&self, key: &InternKey) -> Option<TypeId> {
        self.get(key).copied()
    }

    fn insert(&mut self, key: InternKey, id: TypeId) -> Result<(), AllocFailed<InternKey>> {
        set_ordered(self, key, id)
    }
}
