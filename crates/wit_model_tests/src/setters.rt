//! Setters after their getters.
use crate::shared::{SPAN, check_text, function};
use indexmap::IndexMap;
use std::alloc::{AllocError, Global};
use std::process::Abort;
use std::test::Fail;
use wit_maps::{Table, TextTable};
use wit_model::{
    Function, FunctionKind, WorldItem, WorldKey, get_name, place_setters_after_getters,
    world_item_func,
};
use wit_values::{Row, Text};

fn kind_of(name: &str) -> FunctionKind {
    if name.starts_with("[set]") {
        FunctionKind::Setter
    } else if name.starts_with("[get]") {
        FunctionKind::Getter
    } else {
        FunctionKind::Freestanding
    }
}

// Puts a value under a name.
fn put<'a, V: Drop>(
    map: &mut IndexMap<&'a str, V>,
    name: &'a str,
    value: V,
) -> Result<(), AllocError> {
    map.insert(name, value)?;
    Ok(())
}

// Checks in which order placing leaves the names of a map.
fn expect_placed<V, F: Fn(&V) -> Option<&Function>>(
    rt: &impl Abort,
    alloc: Global,
    map: &mut IndexMap<&str, V>,
    func: F,
    wanted: &str,
) -> Result<(), AllocError>
    requires { F.IsAlwaysCallable func }
{
    place_setters_after_getters(map, func)?;
    let mut text = String::new(alloc);
    for name in map.keys() {
        text.push_str(name)?;
        text.push(' ')?;
    }
    check_text(rt, text.as_str(), wanted);
    Ok(())
}

fn named(alloc: Global, name: &str) -> Result<Function, AllocError> {
    let text = Text::from_str(alloc, name)?;
    Ok(function(text, kind_of(name), Row::new(alloc), SPAN))
}

// Puts functions under their names, which a space parts.
fn put_all<'a>(
    alloc: Global,
    map: &mut IndexMap<&'a str, Function>,
    names: &'a str,
) -> Result<(), AllocError> {
    for name in names.split_whitespace() {
        put(map, name, named(alloc, name)?)?;
    }
    Ok(())
}

// Checks in which order placing leaves the functions of these names.
fn expect(rt: &impl Abort, alloc: Global, names: &str, wanted: &str) -> Result<(), AllocError> {
    let mut map: IndexMap<&str, Function> = IndexMap::new(alloc);
    put_all(alloc, &mut map, names)?;
    expect_placed(rt, alloc, &mut map, |f| Some(f), wanted)
}

#[test]
fn setters_after_getters(rt: HostRuntime) -> Result<(), Fail> {
    let alloc = rt.alloc();
    for (names, wanted) in [
        ("[set]x f [get]x", "f [get]x [set]x "),
        ("[get]x f [set]x", "[get]x f [set]x "),
        (
            "[set]x [set]y [get]y [get]x",
            "[get]y [set]y [get]x [set]x ",
        ),
    ] {
        expect(&rt, rt.alloc(), names, wanted)?;
    }
    Ok(())
}

/// Functions in which a setter comes before its getter.
fn functions(alloc: Global) -> Result<TextTable<Function>, AllocError> {
    let mut table: TextTable<Function> = TextTable::new(alloc);
    for name in ["[set]x", "[get]x"] {
        table.put(String::from_str(alloc, name)?, named(alloc, name)?)?;
    }
    Ok(table)
}

fn are_placed(alloc: Global, table: &TextTable<Function>) -> Result<bool, AllocError> {
    let mut text = String::new(alloc);
    for (name, _) in table {
        text.push_str(name)?;
    }
    Ok(text.as_str() == "[get]x[set]x")
}

#[test]
fn setters_of_text_tables(rt: HostRuntime) -> Result<(), Fail> {
    let mut table = functions(rt.alloc())?;
    place_setters_after_getters(&mut table, |it: &Function| Some(it))?;
    assert!(rt; are_placed(rt.alloc(), &table)?);
    Ok(())
}

/// Imports in which a setter comes before its getter.
fn imports(alloc: Global) -> Result<Table<WorldKey, WorldItem>, AllocError> {
    let mut table: Table<WorldKey, WorldItem> = Table::new(alloc);
    for name in ["[set]x", "[get]x"] {
        let key = WorldKey::Name(Text::from_str(alloc, name)?);
        table.put(key, WorldItem::Function(named(alloc, name)?))?;
    }
    Ok(table)
}

fn are_imports_placed(
    alloc: Global,
    table: &Table<WorldKey, WorldItem>,
) -> Result<bool, AllocError> {
    let mut text = String::new(alloc);
    for (key, _) in table {
        text.push(if key.is_name("[get]x") { 'g' } else { 's' })?;
    }
    Ok(text.as_str() == "gs" && get_name(table, "[set]x").is_some())
}

#[test]
fn setters_of_tables(rt: HostRuntime) -> Result<(), Fail> {
    let mut table = imports(rt.alloc())?;
    place_setters_after_getters(&mut table, |it: &WorldItem| world_item_func(it))?;
    assert!(rt; are_imports_placed(rt.alloc(), &table)?);
    Ok(())
}
