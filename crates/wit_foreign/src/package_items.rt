//! The items of one package.
ghost use Rattle.std.specs.Prelude.{◌≡◌, ◌++◌, ◌∷◌, [], IfOk, OnOk, map, not, nat_eq, position};
ghost use Rattle.std.specs.Cmp.Lexicographic.{pointwise};
ghost use Rattle.std.specs.Map.{lookup};
ghost use Rattle.std.specs.Option.{is_some};
ghost use Rattle.indexmap.specs.IndexMap.{insert_entry};
ghost use Rattle.wit_foreign.specs.Kept.{row_more};

use std::alloc::{AllocError, Global};
use wit_maps::TextTable;
use wit_model::AstItem;
use wit_types::Stability;
use wit_values::Row;

/// Items by their names, each with its entry and the stability of each of its visits.
pub type Items = TextTable<(AstItem, Row<Stability>)>;

/// Adds a visit of an item, of a stability.
fn visit_again(item: &mut (AstItem, Row<Stability>), stability: Stability) -> Result<(), AllocError>
    ensures { OnOk result (item.new ≡ (item.old.0, item.old.1 ++ stability ∷ [])) }
{
    item.1.push(stability)?;
    Ok(())
}

/// An item that is visited once, with that visit's stability.
fn visited_once(
    alloc: Global,
    entry: AstItem,
    stability: Stability,
) -> Result<(AstItem, Row<Stability>), AllocError>
    ensures { IfOk result (λ item. item ≡ (entry, stability ∷ [])) }
{
    let mut stabilities = Row::new(alloc);
    stabilities.push(stability)?;
    Ok((entry, stabilities))
}

/// Puts a value at a text, whatever it is: where this is refused, it is dropped here, where nothing is known of it.
fn put_at<V: Drop>(
    alloc: Global,
    table: &mut TextTable<V>,
    text: &str,
    value: V,
) -> Result<(), AllocError>
    ensures { OnOk result (table.new ≡ insert_entry (pointwise nat_eq) table.old text.now value) }
{
    let text = String::from_str(alloc, text)?;
    table.put(text, value)
}

/// Adds an item that is visited for the first time.
fn add_item(
    alloc: Global,
    items: &mut Items,
    name: &str,
    entry: AstItem,
    stability: Stability,
) -> Result<(), AllocError>
    ensures { OnOk result (items.new ≡ insert_entry (pointwise nat_eq) items.old name.now (entry, stability ∷ [])) }
{
    let item = visited_once(alloc, entry, stability)?;
    put_at(alloc, items, name, item)
}

/// The place of the item of a name.
fn place_of(items: &Items, name: &str) -> Option<usize>
    ensures { result ≡ position (pointwise nat_eq name.now) (map (λ item. item.0) items.now) }
{
    items.get_index_of(name)
}

/// Adds a visit of the item of a name, of a stability; the item gets the entry if nothing has
/// visited it yet. Tells whether it gets it.
pub(crate) fn add_visit_of(
    alloc: Global,
    items: &mut Items,
    name: &str,
    entry: AstItem,
    stability: Stability,
) -> Result<bool, AllocError>
    ensures items { OnOk result (items.new ≡ row_more items.old name.now entry stability) }
    ensures fresh { IfOk result (λ fresh. fresh ≡ not (is_some (lookup (pointwise nat_eq name.now) items.old))) }
{
    match place_of(items, name) {
        Some(place) => {
            visit_again(items.value_mut(place), stability)?;
            Ok(false)
        }
        None => {
            add_item(alloc, items, name, entry, stability)?;
            Ok(true)
        }
    }
}
