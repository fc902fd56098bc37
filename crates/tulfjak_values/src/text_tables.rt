//! Maps from texts in insertion order.

use crate::answers::push_answer;
use std::alloc::{AllocError, Global};
use tulfjak::package::TextTable;

/// Adds six entries to a map of texts.
fn fill(alloc: Global, table: &mut TextTable<u8>) -> Result<(), AllocError> {
    table.insert(String::from_str(alloc, "c")?, 9)?;
    for name in ["a", "b", "d", "e", "f"] {
        table.put(String::from_str(alloc, name)?, 4)?;
    }
    Ok(())
}

/// The map of them, in which `c` leads to 5 in the end.
fn made(alloc: Global) -> Result<TextTable<u8>, AllocError> {
    let mut table: TextTable<u8> = TextTable::with_capacity(alloc, 2)?;
    fill(alloc, &mut table)?;
    if table.len() == 6 {
        *table.value_mut(0) = 5;
    }
    Ok(table.shrunk())
}

/// The same map, in which the first entry changed its place with the last.
fn turned(alloc: Global) -> Result<TextTable<u8>, AllocError> {
    let mut turned = TextTable::from_index_map(made(alloc)?.into_index_map()?)?;
    if turned.len() == 6 {
        turned.swap_indices(0, 5);
    }
    turned.reindex();
    Ok(turned)
}

/// Adds what is at texts of a map.
fn push_found(table: &TextTable<u8>, text: &mut String) -> Result<(), AllocError> {
    push_answer(
        text,
        "TextTable::get",
        &(table.get("c"), table.get("f"), table.get("x")),
    )?;
    let places = (table.get_index_of("c"), table.get_index_of("f"));
    push_answer(text, "TextTable::get_index_of", &places)?;
    push_answer(
        text,
        "TextTable::contains_key",
        &(table.contains_key("a"), table.contains_key("x")),
    )
}

/// Adds the ends of a map.
fn push_ends(table: &TextTable<u8>, text: &mut String) -> Result<(), AllocError> {
    push_answer(
        text,
        "TextTable::first",
        &(table.first(), table.last(), table.get_index(1)),
    )?;
    let firsts = (
        table.keys().next(),
        table.values().next(),
        table.iter().next(),
    );
    push_answer(text, "TextTable::keys", &firsts)?;
    push_answer(text, "TextTable::is_empty", &table.is_empty())
}

/// Adds each entry of a map, and what is at its text.
fn push_entries(table: &TextTable<u8>, text: &mut String) -> Result<(), AllocError> {
    for (key, value) in table.iter() {
        push_answer(text, "TextTable::iter", &(key, value, table.get(key)))?;
    }
    push_found(table, text)?;
    push_ends(table, text)
}

/// Adds whether a map is the same as its copy, and as others.
fn push_same(
    table: &TextTable<u8>,
    turned: &TextTable<u8>,
    text: &mut String,
) -> Result<(), AllocError> {
    let none: TextTable<u8> = TextTable::new(*table.allocator());
    let is_copied = table.clone()? == *table;
    push_answer(
        text,
        "TextTable::clone",
        &(is_copied, *turned == *table, none == *table),
    )
}

/// Adds what calls on two maps of the same entries return.
fn push_both(
    table: &TextTable<u8>,
    turned: &TextTable<u8>,
    text: &mut String,
) -> Result<(), AllocError> {
    push_entries(table, text)?;
    push_entries(turned, text)?;
    push_same(table, turned, text)
}

/// Adds what calls on maps from texts return.
pub fn push_text_tables(alloc: Global, text: &mut String) -> Result<(), AllocError> {
    let table = made(alloc)?;
    push_both(&table, &turned(alloc)?, text)?;
    push_answer(text, "TextTable::into_entries", &table.into_entries())
}
