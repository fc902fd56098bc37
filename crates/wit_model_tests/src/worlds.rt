//! Interfaces and worlds of a package, and their equality.
use crate::shared::{add, check, check_text, first_id, function, place, put, row};
use std::alloc::{AllocError, Global};
use std::process::Abort;
use wit_maps::{Table, TextTable};
use wit_model::laws::copies::{copy_world_include, copy_world_key};
use wit_model::laws::equality::{
    is_same_function, is_same_include_name, is_same_interface, is_same_param, is_same_world,
    is_same_world_include, is_same_world_item, is_same_world_key,
};
use wit_model::{
    Function, FunctionKind, IncludeName, Interface, LiftLowerAbi, ManglingAndAbi, Param, World,
    WorldInclude, WorldItem, WorldKey,
};
use wit_types::{Arena, Docs, InterfacePlace, Stability, Type, Types, WorldPlace};
use wit_values::{Rare, Row, Span, Text};

fn params(alloc: Global, span: Span) -> Result<Row<Param>, AllocError> {
    let name = Text::from_str(alloc, "p")?;
    let ty = Type::U8;
    row(alloc, Param { name, ty, span })
}

fn bare_interface(alloc: Global, span: Span) -> Interface {
    Interface {
        name: None,
        types: TextTable::new(alloc),
        functions: TextTable::new(alloc),
        docs: Docs::default(),
        stability: Stability::Unknown,
        package: None,
        span,
        clone_of: None,
    }
}

fn add_function(
    alloc: Global,
    functions: &mut TextTable<Function>,
    span: Span,
) -> Result<(), AllocError> {
    let params = params(alloc, span)?;
    let name = Text::from_str(alloc, "f")?;
    let kind = FunctionKind::Freestanding;
    put(alloc, functions, "f", function(name, kind, params, span))
}

/// Puts the first interface into an arena, with one type and one function.
pub fn add_interface(
    alloc: Global,
    interfaces: &mut Arena<Interface, InterfacePlace>,
    span: Span,
) -> Result<(), AllocError> {
    place(interfaces, bare_interface(alloc, span))?;
    if interfaces.len() > 0 {
        let first = interfaces.get_mut(interfaces.id_at(0));
        put(alloc, &mut first.types, "t", first_id(alloc))?;
        add_function(alloc, &mut first.functions, span)?;
    }
    Ok(())
}

// Puts a value under a name.
fn set<V: Drop>(
    alloc: Global,
    table: &mut Table<WorldKey, V>,
    name: &str,
    value: V,
) -> Result<(), AllocError> {
    let key = WorldKey::Name(Text::from_str(alloc, name)?);
    table.insert(key, value)?;
    Ok(())
}

// Puts an interface under a name.
fn add_import(
    alloc: Global,
    items: &mut Table<WorldKey, WorldItem>,
    name: &str,
    span: Span,
) -> Result<(), AllocError> {
    let external_id = Rare::some(alloc, Text::from_str(alloc, "x")?)?;
    let id = first_id(alloc);
    let stability = Stability::Unknown;
    let docs = Docs::default();
    set(
        alloc,
        items,
        name,
        WorldItem::Interface {
            id,
            stability,
            external_id,
            docs,
            span,
        },
    )
}

// Puts a function and a type under their names.
fn add_exports(
    alloc: Global,
    items: &mut Table<WorldKey, WorldItem>,
    span: Span,
) -> Result<(), AllocError> {
    let id = first_id(alloc);
    set(alloc, items, "t", WorldItem::Type_ { id, span })?;
    let params = params(alloc, span)?;
    let name = Text::from_str(alloc, "f")?;
    let function = function(name, FunctionKind::Freestanding, params, span);
    set(alloc, items, "f", WorldItem::Function(function))
}

// Puts what a world includes after others.
fn add_include(
    alloc: Global,
    includes: &mut Row<WorldInclude>,
    span: Span,
) -> Result<(), AllocError> {
    let name = Text::from_str(alloc, "a")?;
    let as_ = Text::from_str(alloc, "b")?;
    let names = row(alloc, IncludeName { name, as_ })?;
    let stability = Stability::Unknown;
    let id = first_id(alloc);
    add(
        includes,
        WorldInclude {
            stability,
            id,
            names,
            span,
        },
    )
}

fn bare_world(alloc: Global, name: Text, span: Span) -> World {
    World {
        name,
        imports: Table::new(alloc),
        exports: Table::new(alloc),
        package: None,
        docs: Docs::default(),
        stability: Stability::Unknown,
        includes: Row::new(alloc),
        span,
    }
}

/// Puts the first world into an arena, which imports interfaces of these names.
pub fn add_world(
    alloc: Global,
    worlds: &mut Arena<World, WorldPlace>,
    names: &[&str],
    span: Span,
) -> Result<(), AllocError> {
    let name = Text::from_str(alloc, "w")?;
    place(worlds, bare_world(alloc, name, span))?;
    if worlds.len() > 0 {
        let first = worlds.get_mut(worlds.id_at(0));
        for name in names {
            add_import(alloc, &mut first.imports, name, span)?;
        }
        add_exports(alloc, &mut first.exports, span)?;
        add_include(alloc, &mut first.includes, span)?;
    }
    Ok(())
}

fn check_function(rt: &impl Abort, function: &Function) {
    check(rt, "a function", is_same_function(function, function));
    let param = function.params.as_slice().first().expect(rt, "one");
    check(rt, "a parameter", is_same_param(param, param));
    let choice = ManglingAndAbi::Legacy(LiftLowerAbi::AsyncCallback).for_func(function);
    let sync = ManglingAndAbi::Legacy(LiftLowerAbi::Sync);
    check(rt, "a choice", choice == sync);
    if let FunctionKind::Freestanding = function.kind {
        check_text(rt, function.item_name(), "f");
    }
}

/// Checks that an interface and its function are the same as themselves.
pub fn check_interface(rt: &impl Abort, interface: &Interface) {
    check(rt, "an interface", is_same_interface(interface, interface));
    let function = interface.functions.get("f").expect(rt, "one");
    check_function(rt, function);
}

// Whether a copy is equal to its source.
fn is_equal<T: PartialEq + Drop>(copy: T, source: &T) -> bool {
    copy == *source
}

fn check_include(rt: &impl Abort, include: &WorldInclude) -> Result<(), AllocError> {
    let name = include.names.as_slice().first().expect(rt, "one");
    check(rt, "a renaming", is_same_include_name(name, name));
    check(rt, "an include", is_same_world_include(include, include));
    let is_copied = is_equal(copy_world_include(include)?, include);
    check(rt, "its copy", is_copied);
    Ok(())
}

fn check_key(rt: &impl Abort, key: &WorldKey) -> Result<(), AllocError> {
    check(rt, "a key", is_same_world_key(key, key));
    let is_copied = is_equal(copy_world_key(key)?, key);
    check(rt, "its copy", is_copied);
    Ok(())
}

fn check_item(rt: &impl Abort, types: &Types, item: &WorldItem) {
    check(rt, "an item", is_same_world_item(item, item));
    if let WorldItem::Interface { .. } = item {
        check(rt, "its stability", item.stability(types).is_unknown());
    }
}

/// Checks that a world and its parts are the same as themselves, and as their copies.
pub fn check_world(rt: &impl Abort, types: &Types, world: &World) -> Result<(), AllocError> {
    check(rt, "a world", is_same_world(world, world));
    let include = world.includes.as_slice().first().expect(rt, "one");
    check_include(rt, include)?;
    let (key, item) = world.imports.get_index(0).expect(rt, "one");
    check_item(rt, types, item);
    check_key(rt, key)
}
