//! Order: types as they are listed, stabilities field by field.
ghost use Rattle.std.specs.Prelude.{◌≡◌};
ghost use Rattle.wit_types.specs.TypeOrders.{stability_cmp, type_cmp};

use crate::stability::Stability;
use crate::types::Type;
use std::cmp::Ordering;

/// The order of two types: primitives as they are listed, then entries by their places.
pub fn compare_types(ty: Type, other: Type) -> Ordering
    ensures { result ≡ type_cmp ty other }
{
    ty.cmp(&other)
}

/// The order of two stabilities: unknown, unstable, stable, and then field by field.
pub fn compare_stabilities(stability: &Stability, other: &Stability) -> Ordering
    ensures { result ≡ stability_cmp stability.now other.now }
{
    stability.cmp(other)
}
