//! What the tests share: checks, ids, rows, arenas, tables and a function.
use std::alloc::{AllocError, Global};
use std::process::Abort;
use wit_maps::TextTable;
use wit_model::{Function, FunctionKind, Param};
use wit_types::{Arena, Docs, Id, Stability};
use wit_values::{Rare, Row, Span, Text};

/// Where things are.
pub const SPAN: Span = Span { start: 3, end: 5 };

/// Checks that what is named here holds.
pub fn check(rt: &impl Abort, what: &str, holds: bool) {
    assert!(rt; holds, "{what}");
}

/// Checks that a text is the wanted one.
pub fn check_text(rt: &impl Abort, found: &str, wanted: &str) {
    assert_eq!(rt; found, wanted);
}

/// The id of the first value of an arena that `M` marks.
pub fn first_id<M>(alloc: Global) -> Id<M> {
    let values: Arena<u8, M> = Arena::new(alloc);
    values.next_id()
}

/// The first value of an arena.
pub fn first<T, M>(arena: &Arena<T, M>) -> Option<&T> {
    if arena.len() == 0 {
        return None;
    }
    Some(arena.get(arena.id_at(0)))
}

/// A row of one value.
pub fn row<T: Drop>(alloc: Global, value: T) -> Result<Row<T>, AllocError> {
    let mut row = Row::new(alloc);
    row.push(value)?;
    Ok(row)
}

/// Puts a value after others.
pub fn push<T: Drop>(values: &mut Vec<T>, value: T) -> Result<(), AllocError> {
    values.push(value)?;
    Ok(())
}

/// Puts a value after the others of a row.
pub fn add<T: Drop>(row: &mut Row<T>, value: T) -> Result<(), AllocError> {
    row.push(value)?;
    Ok(())
}

/// Puts a value after the others of an arena.
pub fn place<T: Drop, M>(arena: &mut Arena<T, M>, value: T) -> Result<(), AllocError> {
    arena.alloc(value)?;
    Ok(())
}

/// Puts a value under a name.
pub fn put<V: Drop>(
    alloc: Global,
    table: &mut TextTable<V>,
    name: &str,
    value: V,
) -> Result<(), AllocError> {
    let name = String::from_str(alloc, name)?;
    table.insert(name, value)?;
    Ok(())
}

/// A function of these parameters.
pub fn function(name: Text, kind: FunctionKind, params: Row<Param>, span: Span) -> Function {
    Function {
        name,
        kind,
        params,
        result: None,
        docs: Docs::default(),
        stability: Stability::Unknown,
        span,
        external_id: Rare::none(),
    }
}
