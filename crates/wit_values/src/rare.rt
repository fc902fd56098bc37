//! Values that few have, which contracts see as values or none.
ghost use Rattle.std.specs.Prelude.{◌≡◌, IfOk, None, Some};
ghost use Rattle.std.specs.Option.{option_cmp, option_copied, option_eq, option_partial_cmp};
ghost use Rattle.std.proofs.Common.{rules};

use std::alloc::{AllocError, Global};
use std::cmp::Ordering;
use std::fmt;
use std::marker::Model;

/// A value or none, which contracts see as just that. It is apart, so that what mostly has none is
/// the smaller, however large a value is.
///
/// None comes before every value.
pub struct Rare<T> {
    apart: Option<Box<T>>,
}

impl<T: Drop> Drop for Rare<T> {
    fn drop(self) {
        let Rare { apart: _ } = self;
    }
}

impl<T> Model for Rare<T> {
    ghost use Rattle.std.specs.Prelude.{Option};
    ghost use Rattle.std.specs.Option.{option_map};

    ghost Value = { Option T };

    ghost view = { λ r. option_map (λ b. b.value) r.apart };
}

impl<T: Drop> Rare<T> {
    /// A value, put apart.
    pub fn some(alloc: Global, value: T) -> Result<Rare<T>, AllocError>
        ensures { IfOk result (λ rare. rare ≡ Some value) }
    {
        Ok(Rare {
            apart: Some(Box::new(alloc, value)?),
        })
    }
}

impl<T> Rare<T> {
    /// No value, for which no memory is taken.
    pub fn none() -> Rare<T>
        ensures { result ≡ None }
    {
        Rare { apart: None }
    }

    /// The value, if there is one.
    pub fn get(&self) -> Option<&T>
        ensures { option_copied result ≡ self.now }
    {
        match &self.apart {
            Some(value) => Some(value),
            None => None,
        }
    }
}

impl<T: Clone> Clone for Rare<T> {
    ghost use Rattle.std.specs.Prelude.{IsSomeAnd, MatchOption};

    ghost is_clone = { λ r c. MatchOption r (c ≡ None) (λ x. IsSomeAnd c (T.is_clone x)) };

    fn clone(&self) -> Result<Rare<T>, AllocError> {
        Ok(Rare {
            apart: self.apart.clone()?,
        })
    }
}

impl<T: fmt::Debug> fmt::Debug for Rare<T> {
    fn fmt<W: fmt::Write>(&self, f: &mut fmt::Formatter<W>) -> fmt::Result {
        fmt::Debug::fmt(&self.apart, f)
    }
}

impl<T: PartialEq> PartialEq for Rare<T> {
    ghost eq = { option_eq T.eq };

    ghost laws = { Prim.search (rules) };

    fn eq(&self, other: &Rare<T>) -> bool {
        self.apart == other.apart
    }
}

impl<T: Eq> Eq for Rare<T> {
    ghost laws = { Prim.search (rules) };
}

impl<T: PartialOrd> PartialOrd for Rare<T> {
    ghost partial_cmp = { option_partial_cmp T.partial_cmp };

    ghost laws = { Prim.search (rules) };

    fn partial_cmp(&self, other: &Rare<T>) -> Option<Ordering> {
        self.apart.partial_cmp(&other.apart)
    }
}

impl<T: Ord> Ord for Rare<T> {
    ghost cmp = { option_cmp T.cmp };

    ghost total = { Prim.search (rules) };

    ghost matches_partial_cmp = { Prim.search (rules) };

    ghost matches_eq = { Prim.search (rules) };

    fn cmp(&self, other: &Rare<T>) -> Ordering {
        self.apart.cmp(&other.apart)
    }
}
