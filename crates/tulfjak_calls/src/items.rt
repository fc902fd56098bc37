//! Imports and exports as data.

use crate::answers::push_answer;
use crate::packages::is_moved;
use std::alloc::{AllocError, Global};
use tulfjak::package::{
    Table, Types, WorldItem, WorldKey, place_setters_after_getters, world_item_func,
};

/// The imports or exports of a world.
type Items = Table<WorldKey, WorldItem>;

/// Adds the name of an item that is a function.
fn push_function(text: &mut String, item: &WorldItem) -> Result<(), AllocError> {
    match world_item_func(item) {
        Some(function) => push_answer(text, "world_item_func", &function.name),
        None => Ok(()),
    }
}

/// Adds the stability of an item that is an interface.
fn push_stability(text: &mut String, types: &Types, item: &WorldItem) -> Result<(), AllocError> {
    if let WorldItem::Interface { .. } = item {
        push_answer(text, "WorldItem::stability", item.stability(types))?;
    }
    Ok(())
}

/// Adds what calls on an item return.
fn push_item(
    alloc: Global,
    text: &mut String,
    types: &Types,
    key: &WorldKey,
    item: &WorldItem,
) -> Result<(), AllocError> {
    push_answer(text, "WorldKey::to_text", &key.to_text(alloc)?)?;
    push_answer(text, "WorldItem::span", &(item.span(), is_moved(item)?))?;
    push_stability(text, types, item)?;
    push_function(text, item)
}

/// Adds whether setters are after their getters, so that none is moved.
fn push_placed(text: &mut String, items: &Items) -> Result<(), AllocError> {
    let mut placed = items.clone()?;
    place_setters_after_getters(&mut placed, |it: &WorldItem| world_item_func(it))?;
    let is_same = placed == *items;
    push_answer(text, "place_setters_after_getters", &is_same)
}

/// Adds what calls on items return.
pub fn push_items(
    alloc: Global,
    text: &mut String,
    types: &Types,
    items: &Items,
) -> Result<(), AllocError> {
    for (key, item) in items.iter() {
        push_item(alloc, text, types, key, item)?;
    }
    push_placed(text, items)
}
