//! Equality: values are equal exactly if they are the same.
ghost use Rattle.std.specs.Prelude.{◌≡◌, ◌↔◌, IsTrue};

use crate::docs::Docs;
use crate::int::{FlagsRepr, Int};
use crate::stability::Stability;
use crate::types::{
    Case, Enum, EnumCase, Field, Flag, Flags, Handle, Record, Result_, Tuple, Type, TypeDef,
    TypeOwner, Variant,
};

/// Whether two types are the same.
pub fn is_same_type(a: Type, b: Type) -> bool
    ensures { IsTrue result ↔ (a ≡ b) }
{
    a == b
}

/// Whether two owners are the same.
pub fn is_same_owner(a: TypeOwner, b: TypeOwner) -> bool
    ensures { IsTrue result ↔ (a ≡ b) }
{
    a == b
}

/// Whether two handles are the same.
pub fn is_same_handle(a: Handle, b: Handle) -> bool
    ensures { IsTrue result ↔ (a ≡ b) }
{
    a == b
}

/// Whether two results are the same.
pub fn is_same_outcome(a: &Result_, b: &Result_) -> bool
    ensures { IsTrue result ↔ (a.now ≡ b.now) }
{
    a == b
}

/// Whether two fields are the same.
pub fn is_same_field(a: &Field, b: &Field) -> bool
    ensures { IsTrue result ↔ (a.now ≡ b.now) }
{
    a == b
}

/// Whether two flags are the same.
pub fn is_same_flag(a: &Flag, b: &Flag) -> bool
    ensures { IsTrue result ↔ (a.now ≡ b.now) }
{
    a == b
}

/// Whether two cases are the same.
pub fn is_same_case(a: &Case, b: &Case) -> bool
    ensures { IsTrue result ↔ (a.now ≡ b.now) }
{
    a == b
}

/// Whether two cases of enums are the same.
pub fn is_same_enum_case(a: &EnumCase, b: &EnumCase) -> bool
    ensures { IsTrue result ↔ (a.now ≡ b.now) }
{
    a == b
}

/// Whether two records are the same.
pub fn is_same_record(a: &Record, b: &Record) -> bool
    ensures { IsTrue result ↔ (a.now ≡ b.now) }
{
    a == b
}

/// Whether two types of flags are the same.
pub fn is_same_flags(a: &Flags, b: &Flags) -> bool
    ensures { IsTrue result ↔ (a.now ≡ b.now) }
{
    a == b
}

/// Whether two tuples are the same.
pub fn is_same_tuple(a: &Tuple, b: &Tuple) -> bool
    ensures { IsTrue result ↔ (a.now ≡ b.now) }
{
    a == b
}

/// Whether two variants are the same.
pub fn is_same_variant(a: &Variant, b: &Variant) -> bool
    ensures { IsTrue result ↔ (a.now ≡ b.now) }
{
    a == b
}

/// Whether two enums are the same.
pub fn is_same_enum(a: &Enum, b: &Enum) -> bool
    ensures { IsTrue result ↔ (a.now ≡ b.now) }
{
    a == b
}

/// Whether two entries of the arena of types are the same.
pub fn is_same_type_def(a: &TypeDef, b: &TypeDef) -> bool
    ensures { IsTrue result ↔ (a.now ≡ b.now) }
{
    a == b
}

/// Whether two docs are the same.
pub fn is_same_docs(a: &Docs, b: &Docs) -> bool
    ensures { IsTrue result ↔ (a.now ≡ b.now) }
{
    a == b
}

/// Whether two stabilities are the same.
pub fn is_same_stability(a: &Stability, b: &Stability) -> bool
    ensures { IsTrue result ↔ (a.now ≡ b.now) }
{
    a == b
}

/// Whether two widths of integers are the same.
pub fn is_same_int(a: Int, b: Int) -> bool
    ensures { IsTrue result ↔ (a ≡ b) }
{
    a == b
}

/// Whether two layouts of flags are the same.
pub fn is_same_flags_repr(a: &FlagsRepr, b: &FlagsRepr) -> bool
    ensures { IsTrue result ↔ (a.now ≡ b.now) }
{
    a == b
}
