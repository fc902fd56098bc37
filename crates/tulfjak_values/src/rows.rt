//! Rows, rare values and texts.

use crate::answers::{push_answer, push_shown};
use std::alloc::{AllocError, Global};
use tulfjak::package::{Rare, Row, Text};

/// The row of 7 and 6.
fn made(alloc: Global) -> Result<Row<u8>, AllocError> {
    let mut row = Row::new(alloc);
    row.push(7)?;
    row.push(5)?;
    if row.len() == 2 {
        *row.get_mut(1) = 6;
    }
    Ok(row)
}

/// Adds the ends of a row.
fn push_ends(row: &Row<u8>, text: &mut String) -> Result<(), AllocError> {
    let ends = (row.first(), row.last(), row.iter().next(), row.is_empty());
    push_answer(text, "Row::first", &ends)?;
    push_answer(text, "Row::get", &(row.get(1), row.get(2)))
}

/// Adds each value of a row, by itself and at its place.
fn push_values(row: &Row<u8>, text: &mut String) -> Result<(), AllocError> {
    for value in row.iter() {
        push_answer(text, "Row::iter", value)?;
    }
    for place in 0..row.len() {
        push_answer(text, "Row::index", &row[place])?;
    }
    push_answer(text, "Row::as_slice", &row.as_slice())
}

/// Adds whether a row is the same as its copy, and as another one.
fn push_same(row: &Row<u8>, other: &Row<u8>, text: &mut String) -> Result<(), AllocError> {
    let is_copied = row.clone()? == *row;
    push_answer(text, "Row::clone", &(is_copied, *row == *other))
}

/// Adds what calls on a row and on an empty one return.
fn push_both(row: &Row<u8>, none: &Row<u8>, text: &mut String) -> Result<(), AllocError> {
    push_ends(row, text)?;
    push_ends(none, text)?;
    push_values(row, text)?;
    push_same(row, none, text)
}

/// Adds what calls on rows return.
fn push_row(alloc: Global, text: &mut String) -> Result<(), AllocError> {
    let row = made(alloc)?;
    push_both(&row, &Row::new(alloc), text)?;
    push_answer(text, "Row::from", &Row::from(row.into_vec()))
}

/// Adds a rare value, and whether it is the same as its copy, and as none.
fn push_rare(rare: &Rare<u8>, none: &Rare<u8>, text: &mut String) -> Result<(), AllocError> {
    push_answer(text, "Rare::get", &(rare.get(), none.get()))?;
    let is_copied = rare.clone()? == *rare;
    push_answer(text, "Rare::clone", &(is_copied, *none < *rare))
}

/// Adds a text, and whether it is the same as its copy.
fn push_copied(made: &Text, text: &mut String) -> Result<(), AllocError> {
    let is_copied = made.clone()? == *made;
    push_answer(text, "Text::clone", &(is_copied, made.as_str()))?;
    push_shown(text, "Text", made)
}

/// Adds what calls on texts return.
fn push_text(alloc: Global, text: &mut String) -> Result<(), AllocError> {
    let made = Text::from_str(alloc, "ab")?;
    push_copied(&made, text)?;
    push_answer(text, "Text::from", &Text::from(made.into_string()).as_str())
}

/// Adds what calls on rows, rare values and texts return.
pub fn push_rows(alloc: Global, text: &mut String) -> Result<(), AllocError> {
    push_row(alloc, text)?;
    push_rare(&Rare::some(alloc, 7_u8)?, &Rare::none(), text)?;
    push_text(alloc, text)
}
