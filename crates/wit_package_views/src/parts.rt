//! The view `parts`: what is where the fields, flags and cases of definitions are, and the functions
//! with their parameters, and what worlds import, export and include.

use crate::slices::push_slice;
use std::alloc::AllocError;
use wit_maps::Table;
use wit_model::{Function, Interface, UnresolvedPackage, World, WorldItem, WorldKey};
use wit_text::SourceMap;
use wit_types::{Arena, InterfacePlace, TypeDefKind, Types};

/// Puts what is where fields, flags or cases are after a text.
fn push_members(text: &mut String, map: &SourceMap, kind: &TypeDefKind) -> Result<(), AllocError> {
    match kind {
        TypeDefKind::Record(record) => {
            for field in record.fields.as_slice() {
                push_slice(text, map, field.span)?;
            }
        }
        TypeDefKind::Flags(flags) => {
            for flag in flags.flags.as_slice() {
                push_slice(text, map, flag.span)?;
            }
        }
        TypeDefKind::Variant(variant) => {
            for case in variant.cases.as_slice() {
                push_slice(text, map, case.span)?;
            }
        }
        TypeDefKind::Enum(choice) => {
            for case in choice.cases.as_slice() {
                push_slice(text, map, case.span)?;
            }
        }
        _ => {}
    }
    Ok(())
}

/// Puts what is where a function and its parameters are after a text.
fn push_function(
    text: &mut String,
    map: &SourceMap,
    function: &Function,
) -> Result<(), AllocError> {
    push_slice(text, map, function.span)?;
    for param in function.params.as_slice() {
        push_slice(text, map, param.span)?;
    }
    Ok(())
}

/// Puts what is where an item of a side of a world is after a text.
fn push_item(text: &mut String, map: &SourceMap, item: &WorldItem) -> Result<(), AllocError> {
    match item {
        WorldItem::Function(function) => push_function(text, map, function),
        other => push_slice(text, map, other.span()),
    }
}

/// Puts what is where the items on a side of a world are after a text.
fn push_side(
    text: &mut String,
    map: &SourceMap,
    items: &Table<WorldKey, WorldItem>,
) -> Result<(), AllocError> {
    for place in 0..items.len() {
        if let Some((_, item)) = items.get_index(place) {
            push_item(text, map, item)?;
        }
    }
    Ok(())
}

/// Puts what is where what a world imports, exports and includes is after a text.
fn push_world(text: &mut String, map: &SourceMap, world: &World) -> Result<(), AllocError> {
    text.push_str("\nimports")?;
    push_side(text, map, &world.imports)?;
    text.push_str("\nexports")?;
    push_side(text, map, &world.exports)?;
    text.push_str("\nincludes")?;
    for include in world.includes.as_slice() {
        push_slice(text, map, include.span)?;
    }
    Ok(())
}

/// Puts what is where the parts of types are after a text.
fn push_types(text: &mut String, map: &SourceMap, types: &Types) -> Result<(), AllocError> {
    for ty in types.iter() {
        push_members(text, map, &ty.kind)?;
    }
    Ok(())
}

/// Puts what is where the functions of interfaces are after a text.
fn push_interfaces(
    text: &mut String,
    map: &SourceMap,
    interfaces: &Arena<Interface, InterfacePlace>,
) -> Result<(), AllocError> {
    for interface in interfaces.iter() {
        text.push_str("\nfunctions")?;
        for place in 0..interface.functions.len() {
            if let Some((_, function)) = interface.functions.get_index(place) {
                push_function(text, map, function)?;
            }
        }
    }
    Ok(())
}

/// Puts what is where the parts of a package are after a text.
pub fn push_parts(
    text: &mut String,
    map: &SourceMap,
    package: &UnresolvedPackage,
) -> Result<(), AllocError> {
    text.push_str("members")?;
    push_types(text, map, &package.types)?;
    push_interfaces(text, map, &package.interfaces)?;
    for world in package.worlds.iter() {
        push_world(text, map, world)?;
    }
    text.push_str("\n")
}
