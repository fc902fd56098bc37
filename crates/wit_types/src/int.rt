//! The integers that number cases and hold flags.
ghost use Rattle.std.specs.Prelude.{◌≡◌, ◌≤◌, ◌^◌, length};
ghost use Rattle.wit_types.specs.Sizes.{count_of, int_of_cases, repr_of_flags};

use crate::types::{Enum, Flags, Variant};

/// An integer that numbers a case.
#[derive(Debug, Clone, Copy, PartialEq, Eq)]
pub enum Int {
    U8,
    U16,
    U32,
    U64,
}

/// The integers that hold flags.
#[derive(Debug, Clone, PartialEq, Drop)]
pub enum FlagsRepr {
    U8,
    U16,
    /// So many integers of 32 bits each.
    U32(usize),
}

/// The least integer that distinguishes `cases` cases: to 256 of 8 bits, to 65,536 of 16, to 2^32
/// of 32.
pub fn discriminant_type(cases: usize) -> Int
    requires { cases ≤ 2 ^ 32 }
    ensures { result ≡ int_of_cases cases }
{
    if cases <= 256 {
        Int::U8
    } else if cases <= 65_536 {
        Int::U16
    } else {
        Int::U32
    }
}

impl FlagsRepr {
    /// How many integers there are.
    pub fn count(&self) -> usize
        ensures { result ≡ count_of self.now }
    {
        match self {
            FlagsRepr::U8 | FlagsRepr::U16 => 1,
            FlagsRepr::U32(words) => *words,
        }
    }
}

impl Flags {
    /// The integers that hold the flags: to 8 flags one of 8 bits, to 16 one of 16, else the
    /// least number of 32 bits each, and none where there are no flags.
    pub fn repr(&self) -> FlagsRepr
        ensures { result ≡ repr_of_flags (length self.now.flags) }
    {
        let flags = self.flags.len();
        if flags == 0 {
            FlagsRepr::U32(0)
        } else if flags <= 8 {
            FlagsRepr::U8
        } else if flags <= 16 {
            FlagsRepr::U16
        } else {
            FlagsRepr::U32(flags.div_ceil(32))
        }
    }
}

impl Variant {
    /// The integer that numbers the cases, of which there are at most 2^32.
    pub fn tag(&self) -> Int
        requires { length self.now.cases ≤ 2 ^ 32 }
        ensures { result ≡ int_of_cases (length self.now.cases) }
    {
        discriminant_type(self.cases.len())
    }
}

impl Enum {
    /// The integer that numbers the cases, of which there are at most 2^32.
    pub fn tag(&self) -> Int
        requires { length self.now.cases ≤ 2 ^ 32 }
        ensures { result ≡ int_of_cases (length self.now.cases) }
    {
        discriminant_type(self.cases.len())
    }
}
