//! Ids and arenas: an arena is a list, an id a place in it.
ghost use Rattle.std.specs.Prelude.{◌≡◌, ◌==◌, ◌+◌, ◌<◌, ◌^◌, List, [], ◌∷◌, ◌++◌, ℕ, length, slice_get, slice_set, IfOk, OnErr, IfErr, SomeIff, OnOk, IsTrue};
ghost use Rattle.std.specs.List.{AllZip};
ghost use Rattle.std.specs.Option.{option_copied};
ghost use Rattle.std.specs.Cmp.Lexicographic.{pointwise};
ghost use Rattle.std.specs.Cmp.Rules.{comparing};
ghost use Rattle.std.proofs.Common.{rules};
ghost use Rattle.std.specs.Slice.Iter.{iter_rest};
ghost use Rattle.std.specs.Iterator.Adapters.{IterYieldsInOrder};

use std::alloc::{AllocError, AllocFailed, Global};
use std::marker::{Model, PhantomData};
use std::{fmt, slice};
use wit_values::shrunk;

/// The place of a value in an arena, counted from 0. `T` says which arena.
///
/// Ids are compared and hashed by their places.
#[derive_where(Clone, Copy, PartialEq, Eq, PartialOrd, Ord, Hash, Debug)]
pub struct Id<T> {
    place: usize,
    #[derive_where(skip)]
    of: PhantomData<T>,
}

impl<T> Model for Id<T> {
    ghost use Rattle.std.specs.Prelude.{ℕ};

    ghost Value = { ℕ };

    ghost view = { λ i. i.place };

    ghost inverse = { λ n. record { place = n; of = record {} } };
}

impl<T> Id<T> {
    /// The id of a place.
    pub(crate) fn at(place: usize) -> Id<T>
        ensures { result ≡ place }
    {
        Id {
            place,
            of: PhantomData,
        }
    }

    /// The place.
    pub fn index(self) -> usize
        ensures { result ≡ self }
    {
        self.place
    }
}

/// Values, each at the place that its id names. `M` marks the ids.
///
/// Contracts see the list of the values; two arenas are equal if they are equal lists.
pub struct Arena<T, M = T> {
    items: Vec<T>,
    of: PhantomData<M>,
}

impl<T: Drop, M> Drop for Arena<T, M> {
    fn drop(self) {
        let Arena { items: _, of: _ } = self;
    }
}

impl<T, M> Model for Arena<T, M> {
    ghost use Rattle.std.specs.Prelude.{List};

    ghost Value = { List T };

    ghost view = { λ a. a.items.items };
}

impl<T, M> Arena<T, M> {
    ghost use Rattle.std.specs.Borrow.{sem, Lends};
    ghost use Rattle.wit_types.specs.contracts.arena.Arena.{the_row};

    /// An arena with nothing in it.
    pub fn new(alloc: Global) -> Arena<T, M>
        ensures { result ≡ [] }
    {
        Arena {
            items: Vec::new(alloc),
            of: PhantomData,
        }
    }

    /// How many values there are.
    pub fn len(&self) -> usize
        ensures { result ≡ length self.now }
    {
        self.items.len()
    }

    /// The id that the next value will have.
    pub fn next_id(&self) -> Id<M>
        ensures { result ≡ length self.now }
    {
        Id {
            place: self.items.len(),
            of: PhantomData,
        }
    }

    /// The id of the value at a place.
    pub fn id_at(&self, place: usize) -> Id<M>
        requires { place < length self.now }
        ensures { result ≡ place }
    {
        Id {
            place,
            of: PhantomData,
        }
    }

    /// The id of a value that is so many places after the last one; none exactly where no place is so far.
    pub fn id_after(&self, places: usize) -> Option<Id<M>>
        ensures { SomeIff result (length self.now + places < 2 ^ 64) (length self.now + places) }
    {
        let place = self.items.len().checked_add(places)?;
        Some(Id {
            place,
            of: PhantomData,
        })
    }

    /// Puts a value after the others, and answers its id.
    ///
    /// If a growth is refused, the arena stays as it was and the value comes back.
    pub fn alloc(&mut self, value: T) -> Result<Id<M>, AllocFailed<T>>
        ensures id { IfOk result (λ i. i ≡ length self.old) }
        ensures ok { OnOk result (self.new ≡ self.old ++ value ∷ []) }
        ensures err { OnErr result (self.new ≡ self.old) }
        ensures value_returned { IfErr result (λ e. e.value ≡ value) }
    {
        let place = self.items.len();
        self.items.push(value)?;
        Ok(Id {
            place,
            of: PhantomData,
        })
    }

    /// Puts a value after the others, and answers its id.
    ///
    /// If a growth is refused, the arena stays as it was and the value is dropped: so no refusal has to carry
    /// it.
    pub fn add(&mut self, value: T) -> Result<Id<M>, AllocError>
    where
        T: Drop,
        ensures id { IfOk result (λ i. i ≡ length self.old) }
        ensures ok { OnOk result (self.new ≡ self.old ++ value ∷ []) }
        ensures err { OnErr result (self.new ≡ self.old) }
    {
        let id = self.next_id();
        self.items.reserve(1)?;
        self.items.push_reserved(value);
        Ok(id)
    }

    /// Makes room for so many more values, which are then added without another growth.
    pub fn reserve(&mut self, more: usize) -> Result<(), AllocError>
        ensures { self.new ≡ self.old }
    {
        self.items.reserve_exact(more)
    }

    /// Puts the values of another arena after these, and leaves none there.
    ///
    /// If a growth is refused, both stay as they were.
    pub fn append(&mut self, rest_after: &mut Arena<T, M>) -> Result<(), AllocError>
        ensures ok { OnOk result (self.new ≡ self.old ++ rest_after.old) }
        ensures left { OnOk result (rest_after.new ≡ []) }
        ensures unchanged { OnErr result ((self.new ≡ self.old) × (rest_after.new ≡ rest_after.old)) }
    {
        self.items.append(&mut rest_after.items)?;
        Ok(())
    }

    /// The arena with no more room than it takes.
    pub fn shrunk(self) -> Arena<T, M>
        ensures { result ≡ self }
    {
        let Arena { items, of: _ } = self;
        Arena {
            items: shrunk(items),
            of: PhantomData,
        }
    }

    /// The value at an id of this arena.
    pub fn get(&self, id: Id<M>) -> &T
        requires { id < length self.now }
        ensures { slice_get self.now id ≡ Some result.now }
    {
        &self.items[id.place]
    }

    /// The value at an id, if the arena has one there.
    pub fn find(&self, id: Id<M>) -> Option<&T>
        ensures { option_copied result ≡ slice_get self.now id }
    {
        self.items.get(id.place)
    }

    /// The value at an id of this arena, to be written.
    pub fn get_mut(&mut self, id: Id<M>) -> &mut T
        requires { id < length self.old }
        ensures* writes_back { sem 𝓛 (Lends (the_row T.row M.row) T.row self.entry result (slice_set self.old id)) }
        ensures value { slice_get self.old id ≡ Some result.now }
    {
        &mut self.items[id.place]
    }

    /// The values, as a slice.
    pub(crate) fn as_slice(&self) -> &[T]
        ensures { result.now ≡ self.now }
    {
        self.items.as_slice()
    }

    /// Whether there is no value.
    pub fn is_empty(&self) -> bool
        ensures { result ≡ (length self.now == 0) }
    {
        self.items.is_empty()
    }

    /// The values, moved out of the arena.
    pub fn into_values(self) -> Vec<T>
        ensures { result.items ≡ self }
    {
        let Arena { items, of: _ } = self;
        items
    }

    /// The values in order.
    pub fn iter(&self) -> slice::Iter<'_, T>
        ensures rest { iter_rest result ≡ self.now }
        ensures runs { IterYieldsInOrder T }
    {
        self.items.iter()
    }
}

impl<T: Clone, M> Clone for Arena<T, M> {
    ghost is_clone = { AllZip T.is_clone };

    fn clone(&self) -> Result<Arena<T, M>, AllocError> {
        Ok(Arena {
            items: self.items.clone()?,
            of: PhantomData,
        })
    }
}

impl<T: fmt::Debug, M> fmt::Debug for Arena<T, M> {
    fn fmt<W: fmt::Write>(&self, f: &mut fmt::Formatter<W>) -> fmt::Result {
        fmt::Debug::fmt(&self.items, f)
    }
}

impl<T: PartialEq, M> PartialEq for Arena<T, M> {
    ghost eq = { pointwise T.eq };

    ghost laws = { Prim.search (comparing, rules) };

    fn eq(&self, other: &Arena<T, M>) -> bool {
        self.items == other.items
    }
}

impl<T: Eq, M> Eq for Arena<T, M> {
    ghost laws = { Prim.search (comparing, rules) };
}
