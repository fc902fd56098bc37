//! What finds a key of a map.
ghost use Rattle.std.specs.Prelude.{◌≡◌, IsTrue};
ghost use Rattle.std.specs.BTreeMap as tree;

use indexmap::Equivalent;
use std::collections::BTreeMap;
use std::hash::Hash;

/// What finds a key in an ordered map, as well as it says it.
pub trait Sought<K: Eq + Hash + Ord>: Equivalent<K> {
    /// What is at the key for which it is.
    fn place_in(&self, places: &BTreeMap<K, usize>) -> Option<usize>
        ensures { (k : K) → IsTrue (Self.equivalent self.now k) → result ≡ tree.get K.cmp places.now k };
}

impl<K: Eq + Hash + Ord> Sought<K> for &K {
    fn place_in(&self, places: &BTreeMap<K, usize>) -> Option<usize> {
        places.get(*self).copied()
    }
}

impl Sought<String> for &str {
    fn place_in(&self, places: &BTreeMap<String, usize>) -> Option<usize> {
        places.get(*self).copied()
    }
}

impl<'b> Sought<&'b str> for &str {
    fn place_in(&self, places: &BTreeMap<&'b str, usize>) -> Option<usize> {
        places.get(*self).copied()
    }
}
