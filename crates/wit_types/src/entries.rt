//! The values of an arena, each with its id.
ghost use Rattle.std.specs.Prelude.{◌≡◌};
ghost use Rattle.std.specs.List.{enumerate_from};

use crate::arena::{Arena, Id};
use std::marker::{Model, PhantomData};

/// The values of an arena that are left, in its order, each with its id.
#[derive(Drop)]
pub struct ArenaEntries<'a, T, M> {
    left: &'a [T],
    place: usize,
    of: PhantomData<M>,
}

impl<'a, T, M> Model for ArenaEntries<'a, T, M> {
    ghost use Rattle.std.specs.Prelude.{ℕ, List, length, ◌+◌, ◌<◌, ◌^◌};
    ghost use Rattle.std.specs.List.{enumerate_from};

    ghost Value = { List (ℕ × T) };

    ghost view = { λ it. enumerate_from it.place it.left.now };

    ghost invariant = { λ it. it.place + length it.left.now < 2 ^ 64 };
}

impl<'a, T, M> Iterator for ArenaEntries<'a, T, M> {
    ghost use Rattle.std.specs.Iterator.{YieldsFirstBy, item_count};

    type Item = (Id<M>, &'a T);

    ghost next_gives = { YieldsFirstBy (λ p. (p.0, p.1.now)) (λ left. left) };

    ghost remaining = { item_count (λ left. left) };

    fn next(&mut self) -> Option<(Id<M>, &'a T)> {
        let (first, others) = self.left.split_first()?;
        let id = Id::at(self.place);
        self.left = others;
        self.place += 1;
        Some((id, first))
    }
}

impl<T, M> Arena<T, M> {
    /// The values in order, each with its id.
    pub fn entries(&self) -> ArenaEntries<'_, T, M>
        ensures { result ≡ enumerate_from 0 self.now }
    {
        ArenaEntries {
            left: self.as_slice(),
            place: 0,
            of: PhantomData,
        }
    }
}
