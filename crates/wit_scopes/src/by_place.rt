//! Lists in an order of their places.
ghost use Rattle.std.specs.Prelude.{◌≡◌, ◌<◌, All, length, IfOk};
ghost use Rattle.wit_syntax.specs.ScopeTables.{in_order as the_order};

use std::alloc::{AllocError, Global};

/// The items at these places, in the order of the places.
pub(crate) fn in_order<T: Copy>(
    alloc: Global,
    items: &[T],
    places: &[usize],
) -> Result<Vec<T>, AllocError>
    requires { All (λ place. place < length items.now) places.now }
    ensures { IfOk result (λ ordered. ordered.items ≡ the_order items.now places.now) }
{
    let mut ordered = Vec::with_capacity(alloc, places.len())?;
    for place in places {
        ordered.push(items[*place])?;
    }
    Ok(ordered)
}
