//! The entries, keys and values of maps, in order.
ghost use Rattle.std.specs.Prelude.{◌≡◌, ◌-◌, ◌==◌, is_some, length, slice_get};
ghost use Rattle.std.specs.Map.{keys_of, lookup, values_of};
ghost use Rattle.std.specs.Map.Iter.{deref_pair};
ghost use Rattle.std.specs.Option.{option_map};

use crate::table::Table;
use std::hash::Hash;
use std::marker::Model;

/// The entries of a map that are left, in its order.
#[derive(Drop)]
pub struct Entries<'t, K, V> {
    left: &'t [(K, V)],
}

impl<'t, K, V> Model for Entries<'t, K, V> {
    ghost use Rattle.std.specs.Prelude.{List};

    ghost Value = { List (K × V) };

    ghost view = { λ it. it.left.now };
}

impl<'t, K, V> Iterator for Entries<'t, K, V> {
    ghost use Rattle.std.specs.Iterator.{YieldsFirstBy, item_count};

    type Item = (&'t K, &'t V);

    ghost next_gives = { YieldsFirstBy deref_pair (λ left. left) };

    ghost remaining = { item_count (λ left. left) };

    fn next(&mut self) -> Option<(&'t K, &'t V)> {
        let (first, others) = self.left.split_first()?;
        self.left = others;
        Some((&first.0, &first.1))
    }
}

/// The keys of a map that are left, in its order.
#[derive(Drop)]
pub struct Keys<'t, K, V> {
    left: &'t [(K, V)],
}

impl<'t, K, V> Model for Keys<'t, K, V> {
    ghost use Rattle.std.specs.Prelude.{List};
    ghost use Rattle.std.specs.Map.{keys_of};

    ghost Value = { List K };

    ghost view = { λ it. keys_of it.left.now };
}

impl<'t, K, V> Iterator for Keys<'t, K, V> {
    ghost use Rattle.std.specs.Iterator.{YieldsFirstRef, item_count};

    type Item = &'t K;

    ghost next_gives = { YieldsFirstRef (λ left. left) };

    ghost remaining = { item_count (λ left. left) };

    fn next(&mut self) -> Option<&'t K> {
        let (first, others) = self.left.split_first()?;
        self.left = others;
        Some(&first.0)
    }
}

/// The values of a map that are left, in its order.
#[derive(Drop)]
pub struct Values<'t, K, V> {
    left: &'t [(K, V)],
}

impl<'t, K, V> Model for Values<'t, K, V> {
    ghost use Rattle.std.specs.Prelude.{List};
    ghost use Rattle.std.specs.Map.{values_of};

    ghost Value = { List V };

    ghost view = { λ it. values_of it.left.now };
}

impl<'t, K, V> Iterator for Values<'t, K, V> {
    ghost use Rattle.std.specs.Iterator.{YieldsFirstRef, item_count};

    type Item = &'t V;

    ghost next_gives = { YieldsFirstRef (λ left. left) };

    ghost remaining = { item_count (λ left. left) };

    fn next(&mut self) -> Option<&'t V> {
        let (first, others) = self.left.split_first()?;
        self.left = others;
        Some(&first.1)
    }
}

impl<K: Eq + Hash + Ord, V> Table<K, V> {
    /// Whether there is no entry.
    pub fn is_empty(&self) -> bool
        ensures { result ≡ (length self.now == 0) }
    {
        self.len() == 0
    }

    /// Whether a key has a value.
    pub fn contains_key(&self, key: &K) -> bool
        ensures { result ≡ is_some (lookup (K.eq key.now) self.now) }
    {
        self.get(key).is_some()
    }

    /// The entries in their order.
    pub fn iter(&self) -> Entries<'_, K, V>
        ensures { result ≡ self.now }
    {
        Entries {
            left: self.as_slice(),
        }
    }

    /// The keys in their order.
    pub fn keys(&self) -> Keys<'_, K, V>
        ensures { result ≡ keys_of self.now }
    {
        Keys {
            left: self.as_slice(),
        }
    }

    /// The values in the order of their keys.
    pub fn values(&self) -> Values<'_, K, V>
        ensures { result ≡ values_of self.now }
    {
        Values {
            left: self.as_slice(),
        }
    }

    /// The first entry, if there is one.
    pub fn first(&self) -> Option<(&K, &V)>
        ensures { option_map deref_pair result ≡ slice_get self.now 0 }
    {
        self.get_index(0)
    }

    /// The last entry, if there is one.
    pub fn last(&self) -> Option<(&K, &V)>
        ensures { option_map deref_pair result ≡ slice_get self.now (length self.now - 1) }
    {
        self.get_index(self.len().saturating_sub(1))
    }
}

impl<'t, K: Eq + Hash + Ord, V> IntoIterator for &'t Table<K, V> {
    type Item = (&'t K, &'t V);

    type IntoIter = Entries<'t, K, V>;

    ghost into_iter_gives = { λ table it. it ≡ table.now };

    fn into_iter(self) -> Entries<'t, K, V> {
        self.iter()
    }
}
