//! Items of which some are functions, with their setters put after their getters.
ghost use Rattle.std.specs.Prelude.{◌≡◌, ◌++◌, ◌∷◌, ℕ, List, IfOk, OnOk, map, reverse};
ghost use Rattle.std.specs.BTreeMap.{get_by_text};
ghost use Rattle.std.specs.Option.{option_and_then, option_copied, option_to_list};
ghost use Rattle.wit_functions.specs.SettersPlaced.{setters_placed};
ghost use Rattle.wit_functions.specs.MaybeFunction.{HaveOwnNames, goes, offered as the_offered};
ghost use Rattle.wit_functions.specs.Order.{IsOrderOf};
ghost use Rattle.wit_functions.specs.Parted.{served, waiting_for, without};

use crate::function::Function;
use crate::maybe_function::{MaybeFunction, offered};
use crate::parted::part;
use std::alloc::{AllocError, Global};
use std::collections::BTreeMap;

/// Takes out what waits for a function.
fn take<T: Drop>(waiting: &mut BTreeMap<String, T>, maybe_function: Option<&Function>) -> Option<T>
    ensures in_use { result ≡ option_and_then (get_by_text waiting.old) (the_offered (option_copied maybe_function.entry)) }
    ensures left { (name : List ℕ) → get_by_text waiting.new name ≡ without (the_offered (option_copied maybe_function.entry)) (get_by_text waiting.old) name }
{
    match offered(maybe_function) {
        Some(name) => waiting.remove(name),
        None => None,
    }
}

/// Puts an item after others, and directly after it another, if there is one.
fn push_both<T: Drop>(placed: &mut Vec<T>, item: T, next: Option<T>) -> Result<(), AllocError>
    ensures { OnOk result (placed.new.items ≡ placed.old.items ++ item ∷ option_to_list next) }
{
    placed.push(item)?;
    if let Some(next) = next {
        placed.push(next)?;
    }
    Ok(())
}

/// Puts an item after others, and directly after it the setter that waits for it.
fn place<T: MaybeFunction>(
    placed: &mut Vec<T>,
    waiting: &mut BTreeMap<String, T>,
    item: T,
) -> Result<(), AllocError>
    ensures placed { OnOk result (placed.new.items ≡ placed.old.items ++ item ∷ option_to_list (waiting_for T.function_at (get_by_text waiting.old) item)) }
    ensures left { OnOk result ((name : List ℕ) → get_by_text waiting.new name ≡ without (the_offered (T.function_at item)) (get_by_text waiting.old) name) }
{
    let setter = take(waiting, item.maybe_function());
    push_both(placed, item, setter)?;
    Ok(())
}

/// Items, of which the last comes first, each with the setter that waits for it after it.
fn place_all<T: MaybeFunction>(
    alloc: Global,
    others: Vec<T>,
    waiting: BTreeMap<String, T>,
) -> Result<Vec<T>, AllocError>
    ensures { IfOk result (λ placed. placed.items ≡ served T.function_at (get_by_text waiting) (reverse others.items)) }
{
    let mut others = others;
    others.reverse();
    let mut waiting = waiting;
    let mut placed = Vec::new(alloc);
    for item in others {
        place(&mut placed, &mut waiting, item)?;
    }
    Ok(placed)
}

/// Items, where each setter that comes before its getter comes directly after it instead, if no
/// two functions have one name.
fn all_placed<T: MaybeFunction>(alloc: Global, items: Vec<T>) -> Result<Vec<T>, AllocError>
    ensures { IfOk result (λ placed. HaveOwnNames T.function_at items.items → placed.items ≡ setters_placed (goes T.function_at) items.items) }
{
    let parted = part(alloc, items)?;
    let placed = place_all(alloc, parted.others, parted.waiting)?;
    Ok(placed)
}

fn places_of(
    alloc: Global,
    maybe_function: Vec<(usize, Option<&Function>)>,
) -> Result<Vec<usize>, AllocError>
    ensures { IfOk result (λ places. places.items ≡ map (λ t. t.0) maybe_function.entry.items) }
{
    let mut places = Vec::with_capacity(alloc, maybe_function.len())?;
    for entry in maybe_function {
        places.push(entry.0)?;
    }
    Ok(places)
}

/// Places, each with what is stated there, in the order in which each setter that comes before its
/// getter comes directly after it instead.
pub(crate) fn order_of(
    alloc: Global,
    maybe_function: Vec<(usize, Option<&Function>)>,
) -> Result<Vec<usize>, AllocError>
    ensures { IfOk result (λ order. IsOrderOf maybe_function.entry.items order.items) }
{
    let placed = all_placed(alloc, maybe_function)?;
    let order = places_of(alloc, placed)?;
    Ok(order)
}
