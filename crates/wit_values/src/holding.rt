//! Values kept while something after them may be refused, whatever they are.
ghost use Rattle.std.specs.Prelude.{◌≡◌, ◌++◌, ◌∷◌, [], Err, IfErr, IfOk, Ok, OnOk};

use std::alloc::AllocError;

/// A value and another one, or why that was not made: then the value is dropped.
///
/// Where nothing is known of a value, letting it go costs no proof, so a function that holds a large one
/// over what may be refused hands both to this.
pub fn pair_with<T: Drop, U, E>(value: T, other: Result<U, E>) -> Result<(T, U), E>
    ensures both { IfOk result (λ both. (both.0 ≡ value) × (other ≡ Ok both.1)) }
    ensures refused { IfErr result (λ e. other ≡ Err e) }
{
    match other {
        Ok(other) => Ok((value, other)),
        Err(refusal) => Err(refusal),
    }
}

/// A list with no more room than it takes.
pub fn shrunk<T>(items: Vec<T>) -> Vec<T>
    ensures { result.items ≡ items.items }
{
    let mut items = items;
    items.shrink_to_fit();
    items
}

/// Puts an item after the others; where room for it is refused, it is dropped here.
pub fn push<T: Drop>(items: &mut Vec<T>, item: T) -> Result<(), AllocError>
    ensures { OnOk result (items.new.items ≡ items.old.items ++ item ∷ []) }
{
    items.reserve(1)?;
    items.push_reserved(item);
    Ok(())
}
