//! Setters of a side of a world that come before their getters, put directly after them.
ghost use Rattle.std.specs.Prelude.{◌≡◌, ℕ, Some, IfOk, map, slice_get};
ghost use Rattle.std.specs.List.{list_any};
ghost use Rattle.wit_functions.specs.SettersPlaced.{placed};
ghost use Rattle.wit_model.specs.ItemsOfWorlds.{function_of};
ghost use Rattle.wit_functions.specs.declared.function.Function.{Function};
ghost use Rattle.wit_model.specs.declared.world.WorldItem.{WorldItem as TheItem};
ghost use Rattle.wit_model.specs.declared.world.WorldKey.{WorldKey as TheKey};
ghost use Rattle.wit_model.specs.declared.world.WorldKey.TheVariants.{Name};
ghost use Rattle.wit_syntax.specs.Repeats.{AllDiffer};
ghost use Rattle.wit_functions.specs.MaybeFunction.{is_setter as is_a_setter};

use std::alloc::{AllocError, Global};
use wit_functions::function_items::after_getters;
use wit_functions::maybe_function::is_setter;
use wit_maps::Table;
use wit_model::{WorldItem, WorldKey, world_item_func};

/// Whether an item is a setter.
fn is_setter_item(item: &WorldItem) -> bool
    ensures { result ≡ is_a_setter (function_of item.now) }
{
    is_setter(world_item_func(item))
}

/// Whether one of these is a setter.
fn have_setter(side: &Table<WorldKey, WorldItem>) -> bool
    ensures { result ≡ list_any (λ e. is_a_setter (function_of e.1)) side.now }
{
    for place in 0..side.len() {
        if let Some((_, item)) = side.get_index(place) {
            if is_setter_item(item) {
                return true;
            }
        }
    }
    false
}

/// A side of a world, where each setter that comes before its getter comes directly after it
/// instead. All else keeps its order. A function is at its name.
pub fn place_setters(
    alloc: Global,
    side: Table<WorldKey, WorldItem>,
) -> Result<Table<WorldKey, WorldItem>, AllocError>
    requires distinct { AllDiffer (map (λ e. e.0) side) }
    requires named { (k : ℕ) (e : TheKey × TheItem) (f : Function) → slice_get side k ≡ Some e → function_of e.1 ≡ Some f → e.0 ≡ Name f.name }
    ensures { IfOk result (λ done. done ≡ placed function_of side) }
{
    if !have_setter(&side) {
        return Ok(side);
    }
    let entries = side.into_entries();
    let placed = after_getters(alloc, entries)?;
    let table = Table::from_entries(alloc, placed)?;
    Ok(table)
}
