//! Items of which some are functions, with their setters put after their getters where they are.
ghost use Rattle.std.specs.Prelude.{◌≡◌, IfOk};
ghost use Rattle.wit_functions.specs.Order.{ArePlacesOf};
ghost use Rattle.wit_functions.specs.Reordered.{IsOrder};
ghost use Rattle.wit_functions.specs.SettersPlaced.{setters_placed};
ghost use Rattle.wit_functions.specs.MaybeFunction.{HaveOwnNames, goes};

use crate::function::Function;
use crate::maybe_function::MaybeFunction;
use crate::placed::order_of;
use crate::reordering::{Positions, put_in_order};
use std::alloc::{AllocError, Global};

/// The places of items, each with the function that is there.
fn stated_items<T: MaybeFunction>(
    alloc: Global,
    items: &[T],
) -> Result<Vec<(usize, Option<&Function>)>, AllocError>
    ensures { IfOk result (λ maybe_function. ArePlacesOf T.function_at items.now maybe_function.items) }
{
    let mut maybe_function = Vec::with_capacity(alloc, items.len())?;
    for place in 0..items.len() {
        let item = &items[place];
        maybe_function.push((place, item.maybe_function()))?;
    }
    Ok(maybe_function)
}

fn new_order<T: MaybeFunction>(alloc: Global, items: &[T]) -> Result<Vec<usize>, AllocError>
    ensures { IfOk result (λ order. HaveOwnNames T.function_at items.now → IsOrder items.now order.items (setters_placed (goes T.function_at) items.now)) }
{
    let maybe_function = stated_items(alloc, items)?;
    let order = order_of(alloc, maybe_function)?;
    Ok(order)
}

/// Items, where each setter that comes before its getter comes directly after it instead, if no
/// two functions have one name.
pub fn after_getters<T: MaybeFunction>(alloc: Global, items: Vec<T>) -> Result<Vec<T>, AllocError>
    ensures { IfOk result (λ placed. HaveOwnNames T.function_at items.items → placed.items ≡ setters_placed (goes T.function_at) items.items) }
{
    let order = new_order(alloc, &items)?;
    let positions = Positions::new(alloc, items.len())?;
    let mut items = items;
    put_in_order(&mut items, positions, order);
    Ok(items)
}
