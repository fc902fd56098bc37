//! A table that finds unnamed types by what they are.
ghost use Rattle.std.specs.Prelude.{◌≡◌, Some, OnOk, OnErr};
ghost use Rattle.wit_entries.specs.Known.{IsSet, key_hash_of, key_hashes_at, keys_at};

use std::alloc::{AllocError, Global};
use std::collections::BTreeMap;
use std::hash::{FoldHasher, Hash, Hasher};
use wit_intern::{InternKey, InternTable};
use wit_types::TypeId;

/// Places of unnamed types: each at the hash of its key, and where an earlier one has that hash, at
/// the key itself.
///
/// Both maps are ordered, so that no types cost more than others, and keys are compared only where
/// hashes are equal.
pub(crate) struct KeyTable {
    key_hashes: BTreeMap<u64, TypeId>,
    keys: BTreeMap<InternKey, TypeId>,
}

impl Drop for KeyTable {
    fn drop(self) {
        let KeyTable {
            key_hashes: _,
            keys: _,
        } = self;
    }
}

/// A number made of a key, which two keys seldom share.
fn key_hash(key: &InternKey) -> u64
    ensures { result ≡ key_hash_of key.now }
{
    let mut hasher = FoldHasher::default();
    key.hash(&mut hasher);
    hasher.finish()
}

impl KeyTable {
    /// No places.
    pub(crate) fn new(alloc: Global) -> KeyTable {
        KeyTable {
            key_hashes: BTreeMap::new(alloc),
            keys: BTreeMap::new(alloc),
        }
    }

    /// The place at the hash of a key.
    pub(crate) fn at_key_hash(&self, key: &InternKey) -> Option<TypeId>
        ensures { result ≡ key_hashes_at self.now (key_hash_of key.now) }
    {
        self.key_hashes.get(&key_hash(key)).copied()
    }

    /// The place at a key itself.
    pub(crate) fn at_key(&self, key: &InternKey) -> Option<TypeId>
        ensures { result ≡ keys_at self.now key.now }
    {
        InternTable::find(&self.keys, key)
    }

    /// Sets a place at a key that has none: at its hash, unless that has one.
    ///
    /// If a growth is refused, the table stays as it was.
    pub(crate) fn insert(&mut self, key: InternKey, id: TypeId) -> Result<(), AllocError>
        ensures set { OnOk result (IsSet (Some key) id (key_hashes_at self.old) (keys_at self.old) (key_hashes_at self.new) (keys_at self.new)) }
        ensures key_hashes_stay { OnErr result (key_hashes_at self.new ≡ key_hashes_at self.old) }
        ensures keys_stay { OnErr result (keys_at self.new ≡ keys_at self.old) }
    {
        let key_hash = key_hash(&key);
        if self.key_hashes.contains_key(&key_hash) {
            match InternTable::insert(&mut self.keys, key, id) {
                Ok(()) => Ok(()),
                Err(_) => Err(AllocError),
            }
        } else {
            match self.key_hashes.insert(key_hash, id) {
                Ok(_) => Ok(()),
                Err(_) => Err(AllocError),
            }
        }
    }
}
