//! The entries, keys and values of maps from texts, in order.
ghost use Rattle.std.specs.Prelude.{◌≡◌, ◌-◌, ◌==◌, is_some, length, nat_eq, slice_get};
ghost use Rattle.std.specs.Cmp.Lexicographic.{pointwise};
ghost use Rattle.std.specs.Map.{keys_of, lookup, values_of};
ghost use Rattle.std.specs.Option.{option_map};

use crate::entries::{Entries, Values};
use crate::text_table::TextTable;
use std::marker::Model;

/// The entries of a map from texts that are left, in its order.
#[derive(Drop)]
pub struct TextEntries<'t, V> {
    entries: Entries<'t, String, V>,
}

impl<'t, V> Model for TextEntries<'t, V> {
    ghost use Rattle.std.specs.Prelude.{ℕ, List};
    ghost use Rattle.wit_maps.specs.TextEntries.{text_entries};

    ghost Value = { List (List ℕ × V) };

    ghost view = { λ it. text_entries it.entries };
}

impl<'t, V> Iterator for TextEntries<'t, V> {
    ghost use Rattle.std.specs.Iterator.{YieldsFirstBy, item_count};
    ghost use Rattle.std.specs.Map.Iter.{deref_pair};

    type Item = (&'t str, &'t V);

    ghost next_gives = { YieldsFirstBy deref_pair (λ left. left) };

    ghost remaining = { item_count (λ left. left) };

    fn next(&mut self) -> Option<(&'t str, &'t V)> {
        let (name, value) = self.entries.next()?;
        Some((name.as_str(), value))
    }
}

/// The texts of a map that are left, in its order.
#[derive(Drop)]
pub struct TextKeys<'t, V> {
    entries: Entries<'t, String, V>,
}

impl<'t, V> Model for TextKeys<'t, V> {
    ghost use Rattle.std.specs.Prelude.{ℕ, List};
    ghost use Rattle.std.specs.Map.{keys_of};
    ghost use Rattle.wit_maps.specs.TextEntries.{text_entries};

    ghost Value = { List (List ℕ) };

    ghost view = { λ it. keys_of (text_entries it.entries) };
}

impl<'t, V> Iterator for TextKeys<'t, V> {
    ghost use Rattle.std.specs.Iterator.{YieldsFirstRef, item_count};

    type Item = &'t str;

    ghost next_gives = { YieldsFirstRef (λ left. left) };

    ghost remaining = { item_count (λ left. left) };

    fn next(&mut self) -> Option<&'t str> {
        let (name, _) = self.entries.next()?;
        Some(name.as_str())
    }
}

impl<V> TextTable<V> {
    /// Whether there is no entry.
    pub fn is_empty(&self) -> bool
        ensures { result ≡ (length self.now == 0) }
    {
        self.len() == 0
    }

    /// Whether a text has a value.
    pub fn contains_key(&self, key: &str) -> bool
        ensures { result ≡ is_some (lookup (pointwise nat_eq key.now) self.now) }
    {
        self.get(key).is_some()
    }

    /// The entries in their order.
    pub fn iter(&self) -> TextEntries<'_, V>
        ensures { result ≡ self.now }
    {
        TextEntries {
            entries: self.table().iter(),
        }
    }

    /// The texts in their order.
    pub fn keys(&self) -> TextKeys<'_, V>
        ensures { result ≡ keys_of self.now }
    {
        TextKeys {
            entries: self.table().iter(),
        }
    }

    /// The values in the order of their texts.
    pub fn values(&self) -> Values<'_, String, V>
        ensures { result ≡ values_of self.now }
    {
        self.table().values()
    }

    /// The first entry, if there is one.
    pub fn first(&self) -> Option<(&str, &V)>
        ensures { option_map (λ p. (p.0.now, p.1.now)) result ≡ slice_get self.now 0 }
    {
        self.get_index(0)
    }

    /// The last entry, if there is one.
    pub fn last(&self) -> Option<(&str, &V)>
        ensures { option_map (λ p. (p.0.now, p.1.now)) result ≡ slice_get self.now (length self.now - 1) }
    {
        self.get_index(self.len().saturating_sub(1))
    }
}

impl<'t, V> IntoIterator for &'t TextTable<V> {
    type Item = (&'t str, &'t V);

    type IntoIter = TextEntries<'t, V>;

    ghost into_iter_gives = { λ table it. it ≡ table.now };

    fn into_iter(self) -> TextEntries<'t, V> {
        self.iter()
    }
}
