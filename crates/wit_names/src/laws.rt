//! What holds of names once folded.
ghost use Rattle.std.specs.Prelude.{◌≡◌, ◌↔◌, IfOk, IsTrue};
ghost use Rattle.wit_names.specs.Folded.{folded_key};
ghost use Rattle.wit_names.specs.Mangled.{is_mangled};

use crate::folded::Folded;
use std::alloc::{AllocError, Global};

/// Whether two mangled names are one once folded: exactly if their keys are equal.
///
/// The error is a failed allocation.
pub fn equal_by_key(alloc: Global, first: &str, second: &str) -> Result<bool, AllocError>
    requires first { IsTrue (is_mangled first.now) }
    requires second { IsTrue (is_mangled second.now) }
    ensures { IfOk result (λ same. IsTrue same ↔ (folded_key first.now ≡ folded_key second.now)) }
{
    Ok(Folded::new(alloc, first)? == Folded::new(alloc, second)?)
}
