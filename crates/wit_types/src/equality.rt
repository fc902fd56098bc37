//! Equality of kinds: two are equal exactly if they are the same.
ghost use Rattle.std.specs.Prelude.{◌≡◌, ◌↔◌, IsTrue};

use crate::types::TypeDefKind;

/// Whether two kinds of types are the same, docs and spans included.
pub fn is_same_kind(a: &TypeDefKind, b: &TypeDefKind) -> bool
    ensures { IsTrue result ↔ (a.now ≡ b.now) }
{
    a == b
}
