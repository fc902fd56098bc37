//! Equality: values are equal exactly if they are the same.
ghost use Rattle.std.specs.Prelude.{◌≡◌, ◌↔◌, IsTrue};

use crate::abi::{AbiVariant, LiftLowerAbi, Mangling, ManglingAndAbi};
use crate::function::{Function, FunctionKind, Param};

/// Whether two parameters are the same.
pub fn is_same_param(a: &Param, b: &Param) -> bool
    ensures { IsTrue result ↔ (a.now ≡ b.now) }
{
    a == b
}

/// Whether two kinds of functions are the same.
pub fn is_same_function_kind(a: FunctionKind, b: FunctionKind) -> bool
    ensures { IsTrue result ↔ (a ≡ b) }
{
    a == b
}

/// Whether two functions are the same.
pub fn is_same_function(a: &Function, b: &Function) -> bool
    ensures { IsTrue result ↔ (a.now ≡ b.now) }
{
    a == b
}

/// Whether two spellings of exports are the same.
pub fn is_same_mangling(a: Mangling, b: Mangling) -> bool
    ensures { IsTrue result ↔ (a ≡ b) }
{
    a == b
}

/// Whether two ways of calling are the same.
pub fn is_same_abi(a: LiftLowerAbi, b: LiftLowerAbi) -> bool
    ensures { IsTrue result ↔ (a ≡ b) }
{
    a == b
}

/// Whether two spellings with their ways of calling are the same.
pub fn is_same_mangling_and_abi(a: ManglingAndAbi, b: ManglingAndAbi) -> bool
    ensures { IsTrue result ↔ (a ≡ b) }
{
    a == b
}

/// Whether two variants of a call are the same.
pub fn is_same_abi_variant(a: AbiVariant, b: AbiVariant) -> bool
    ensures { IsTrue result ↔ (a ≡ b) }
{
    a == b
}
