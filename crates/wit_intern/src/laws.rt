//! What holds of all keys: they say kinds, and are compared and ordered as their parts are.
ghost use Rattle.std.specs.Prelude.{◌≡◌, ◌↔◌, IsTrue};
ghost use Rattle.wit_intern.specs.TypeKeys.{KeysDetermine};

use crate::key::InternKey;
use wit_types::TypeDefKind;

/// Kinds with one key are the same kind.
pub fn keys_determine(a: &TypeDefKind, b: &TypeDefKind)
    ensures { KeysDetermine a.now b.now }
{}

/// Whether two keys are the same.
pub fn is_same_key(a: &InternKey, b: &InternKey) -> bool
    ensures { IsTrue result ↔ (a.now ≡ b.now) }
{
    a == b
}
