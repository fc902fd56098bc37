//! Maps in insertion order.

use crate::answers::push_answer;
use std::alloc::{AllocError, Global};
use tulfjak::package::{Table, Text, WorldKey, get_name};

/// Adds six entries to a map of bytes.
fn fill(table: &mut Table<u8, u8>) -> Result<(), AllocError> {
    table.insert(3, 9)?;
    table.put(1, 4)?;
    table.put_new(2, 6)?;
    for key in [6, 5, 4] {
        table.put(key, 7)?;
    }
    Ok(())
}

/// The map of them, in which 3 leads to 5 in the end.
fn made(alloc: Global) -> Result<Table<u8, u8>, AllocError> {
    let mut table: Table<u8, u8> = Table::with_capacity(alloc, 3)?;
    fill(&mut table)?;
    if table.len() == 6 {
        *table.value_mut(0) = 5;
    }
    Ok(table.shrunk())
}

/// The same map, in which the first entry changed its place with the last.
fn turned(alloc: Global) -> Result<Table<u8, u8>, AllocError> {
    let mut turned = Table::from_index_map(made(alloc)?.into_index_map()?)?;
    if turned.len() == 6 {
        turned.swap_indices(0, 5);
    }
    Ok(turned)
}

/// Adds what is at keys of a map.
fn push_found(table: &Table<u8, u8>, text: &mut String) -> Result<(), AllocError> {
    push_answer(
        text,
        "Table::get",
        &(table.get(&3), table.get_by(&1), table.get(&8)),
    )?;
    let places = (table.get_index_of(&3), table.get_index_of(&4));
    push_answer(text, "Table::get_index_of", &places)?;
    push_answer(
        text,
        "Table::contains_key",
        &(table.contains_key(&1), table.contains_key(&8)),
    )
}

/// Adds the ends of a map.
fn push_ends(table: &Table<u8, u8>, text: &mut String) -> Result<(), AllocError> {
    push_answer(
        text,
        "Table::first",
        &(table.first(), table.last(), table.get_index(1)),
    )?;
    let firsts = (
        table.keys().next(),
        table.values().next(),
        table.iter().next(),
    );
    push_answer(text, "Table::keys", &firsts)?;
    push_answer(text, "Table::is_empty", &table.is_empty())
}

/// Adds each entry of a map, and what is at its key.
fn push_entries(table: &Table<u8, u8>, text: &mut String) -> Result<(), AllocError> {
    for (key, value) in table.iter() {
        push_answer(text, "Table::iter", &(key, value, table.get(key)))?;
    }
    push_found(table, text)?;
    push_ends(table, text)
}

/// Adds whether a map is the same as its copy, and as others.
fn push_same(
    table: &Table<u8, u8>,
    turned: &Table<u8, u8>,
    text: &mut String,
) -> Result<(), AllocError> {
    let none: Table<u8, u8> = Table::new(*table.allocator());
    let is_copied = table.clone()? == *table;
    push_answer(
        text,
        "Table::clone",
        &(is_copied, *turned == *table, none == *table),
    )
}

/// Adds what calls on two maps of the same entries return.
fn push_both(
    table: &Table<u8, u8>,
    turned: &mut Table<u8, u8>,
    text: &mut String,
) -> Result<(), AllocError> {
    push_entries(table, text)?;
    push_found(turned, text)?;
    turned.reindex();
    push_entries(turned, text)?;
    push_same(table, turned, text)
}

/// Adds what calls on maps of bytes return.
fn push_bytes(alloc: Global, text: &mut String) -> Result<(), AllocError> {
    let table = made(alloc)?;
    push_both(&table, &mut turned(alloc)?, text)?;
    push_answer(
        text,
        "Table::from_entries",
        &Table::from_entries(alloc, table.into_entries())?,
    )
}

/// Adds what is at names of a map, without a key.
fn push_named(alloc: Global, text: &mut String) -> Result<(), AllocError> {
    let mut table: Table<WorldKey, u8> = Table::new(alloc);
    table.put(WorldKey::Name(Text::from_str(alloc, "a")?), 5)?;
    push_answer(
        text,
        "get_name",
        &(get_name(&table, "a"), get_name(&table, "b")),
    )
}

/// Adds what calls on maps return.
pub fn push_tables(alloc: Global, text: &mut String) -> Result<(), AllocError> {
    push_bytes(alloc, text)?;
    push_named(alloc, text)
}
