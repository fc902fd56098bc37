//! Lists of values, which contracts see as plain lists.
ghost use Rattle.std.specs.Prelude.{◌≡◌, ◌<◌, ◌-◌, ◌==◌, ◌++◌, ◌∷◌, IfOk, OnOk, OnErr, IfErr, Some, [], length, slice_get, slice_set};
ghost use Rattle.std.specs.List.{AllZip};
ghost use Rattle.std.specs.Option.{option_copied};
ghost use Rattle.std.specs.Slice.Iter.{iter_rest};
ghost use Rattle.std.specs.Iterator.Adapters.{IterYieldsInOrder};
ghost use Rattle.std.specs.Vec.{vec_capacity, vec_len};
ghost use Rattle.std.specs.Cmp.Lexicographic.{lists_agrees, lists_equiv, lists_po, lists_ties, lists_total, pointwise, slice_cmp, slice_partial_cmp};
ghost use Rattle.std.specs.Cmp.{partial_equiv_from_equiv};
ghost use Rattle.std.proofs.Common.{rules};
ghost use Rattle.std.specs.Hash as fed;
ghost use Rattle.std.specs.Hash.{items_Alike};
ghost use Rattle.std.specs.Cmp.Rules.{comparing, hashing};

use std::alloc::{AllocError, AllocFailed, Global};
use std::cmp::Ordering;
use std::hash::{Hash, Hasher};
use std::marker::Model;
use std::ops::Index;
use std::{fmt, slice};

/// Values in order, which contracts see as a list.
///
/// It is made from a `Vec` and gives it back. Rows are compared value by value, and where one is
/// the other's prefix the shorter comes first.
pub struct Row<T> {
    items: Vec<T>,
}

impl<T: Drop> Drop for Row<T> {
    fn drop(self) {
        let Row { items: _ } = self;
    }
}

impl<T> Model for Row<T> {
    ghost use Rattle.std.specs.Prelude.{List};

    ghost Value = { List T };

    ghost view = { λ r. r.items.items };
}

impl<T> From<Vec<T>> for Row<T> {
    ghost from_gives = { λ v r. r ≡ v.items };

    fn from(items: Vec<T>) -> Row<T> {
        Row { items }
    }
}

/// Makes room for one more value, and for no more where it is the first: many rows hold one.
fn make_room<T>(values: &mut Vec<T>) -> Result<(), AllocError>
    ensures items { values.new.items ≡ values.old.items }
    ensures room { OnOk result (vec_len values.new < vec_capacity values.new) }
{
    if values.is_empty() {
        return values.reserve_exact(1);
    }
    values.reserve(1)
}

impl<T> Row<T> {
    ghost use Rattle.std.specs.Borrow.{sem, Lends};
    ghost use Rattle.wit_values.specs.contracts.row.Row.{the_row};

    /// A row with nothing in it.
    pub fn new(alloc: Global) -> Row<T>
        ensures { result ≡ [] }
    {
        Row {
            items: Vec::new(alloc),
        }
    }

    /// How many values there are.
    pub fn len(&self) -> usize
        ensures { result ≡ length self.now }
    {
        self.items.len()
    }

    /// The values.
    pub fn as_slice(&self) -> &[T]
        ensures { result.now ≡ self.now }
    {
        self.items.as_slice()
    }

    /// Whether there is no value.
    pub fn is_empty(&self) -> bool
        ensures { result ≡ (length self.now == 0) }
    {
        self.items.is_empty()
    }

    /// The values in order.
    pub fn iter(&self) -> slice::Iter<'_, T>
        ensures rest { iter_rest result ≡ self.now }
        ensures runs { IterYieldsInOrder T }
    {
        self.items.iter()
    }

    /// The value at a place, counted from 0, if the row has one there.
    pub fn get(&self, place: usize) -> Option<&T>
        ensures { option_copied result ≡ slice_get self.now place }
    {
        self.items.get(place)
    }

    /// The first value, if there is one.
    pub fn first(&self) -> Option<&T>
        ensures { option_copied result ≡ slice_get self.now 0 }
    {
        self.items.first()
    }

    /// The last value, if there is one.
    pub fn last(&self) -> Option<&T>
        ensures { option_copied result ≡ slice_get self.now (length self.now - 1) }
    {
        self.items.last()
    }

    /// The value at a place, to be written; nothing else of the row changes.
    pub fn get_mut(&mut self, place: usize) -> &mut T
        requires { place < length self.old }
        ensures* writes_back { sem 𝓛 (Lends (the_row T.row) T.row self.entry result (slice_set self.old place)) }
        ensures value { slice_get self.old place ≡ Some result.now }
    {
        &mut self.items[place]
    }

    /// Puts a value after the others. The first has room for itself alone. If a growth is refused, the row
    /// stays as it was.
    pub fn push(&mut self, value: T) -> Result<(), AllocFailed<T>>
        ensures ok { OnOk result (self.new ≡ self.old ++ value ∷ []) }
        ensures err { OnErr result (self.new ≡ self.old) }
        ensures value_returned { IfErr result (λ e. e.value ≡ value) }
    {
        if make_room(&mut self.items).is_err() {
            return Err(AllocFailed { value });
        }
        self.items.push_reserved(value);
        Ok(())
    }

    /// The values, given back.
    pub fn into_vec(self) -> Vec<T>
        ensures { result.items ≡ self }
    {
        let Row { items } = self;
        items
    }
}

impl<T> Index<usize> for Row<T> {
    type Output = T;

    ghost can_index = { λ row place. place < length row };

    ghost index_gives = { λ row place x. slice_get row place ≡ Some x };

    fn index(&self, place: usize) -> &T {
        &self.items[place]
    }
}

impl<'t, T> IntoIterator for &'t Row<T> {
    type Item = &'t T;

    type IntoIter = slice::Iter<'t, T>;

    ghost into_iter_gives = { λ row it. (iter_rest it ≡ row.now) × IterYieldsInOrder T };

    fn into_iter(self) -> slice::Iter<'t, T> {
        self.iter()
    }
}

impl<T: Clone> Clone for Row<T> {
    ghost is_clone = { AllZip T.is_clone };

    fn clone(&self) -> Result<Row<T>, AllocError> {
        Ok(Row {
            items: self.items.clone()?,
        })
    }
}

impl<T: fmt::Debug> fmt::Debug for Row<T> {
    fn fmt<W: fmt::Write>(&self, f: &mut fmt::Formatter<W>) -> fmt::Result {
        fmt::Debug::fmt(&self.items, f)
    }
}

impl<T: PartialEq> PartialEq for Row<T> {
    ghost eq = { pointwise T.eq };

    ghost laws = { Prim.search (comparing, rules) };

    fn eq(&self, other: &Row<T>) -> bool {
        self.items == other.items
    }
}

impl<T: Eq> Eq for Row<T> {
    ghost laws = { Prim.search (comparing, rules) };
}

impl<T: Hash> Hash for Row<T> {
    ghost hash_input = { fed.slice T.hash_input };

    ghost respects_eq = { (items_Alike (record { fed = T.respects_eq })).fed };

    fn hash<H: Hasher>(&self, state: &mut H) {
        self.items.hash(state);
    }
}

impl<T: PartialOrd> PartialOrd for Row<T> {
    ghost partial_cmp = { slice_partial_cmp T.partial_cmp };

    ghost laws = { lists_po T.PartialOrd.laws };

    fn partial_cmp(&self, other: &Row<T>) -> Option<Ordering> {
        self.items.partial_cmp(&other.items)
    }
}

impl<T: Ord> Ord for Row<T> {
    ghost cmp = { slice_cmp T.cmp };

    ghost total = { lists_total T.total };

    ghost matches_partial_cmp = { lists_agrees T.matches_partial_cmp };

    ghost matches_eq = { lists_ties T.cmp T.matches_eq };

    fn cmp(&self, other: &Row<T>) -> Ordering {
        self.items.cmp(&other.items)
    }
}
