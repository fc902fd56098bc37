//! The view `docs`: the docs of a package and of what it holds.

use std::alloc::AllocError;
use wit_maps::Table;
use wit_model::{Interface, UnresolvedPackage, World, WorldItem, WorldKey};
use wit_types::{Arena, Docs, InterfacePlace, TypeDefKind, Types, WorldPlace};

/// Puts a name and its docs after a text, as a line; an LF is written `|`.
fn push_docs(text: &mut String, name: &str, docs: &Docs) -> Result<(), AllocError> {
    let Some(contents) = &docs.contents else {
        return Ok(());
    };
    text.push_str("\n")?;
    text.push_str(name)?;
    push_lines(text, contents.as_str())
}

/// Puts the lines of docs after a text.
fn push_lines(text: &mut String, contents: &str) -> Result<(), AllocError> {
    text.push_str(":")?;
    for line in contents.split('\n') {
        text.push_str(line)?;
        text.push_str("|")?;
    }
    Ok(())
}

/// Puts the docs of fields, flags or cases after a text.
fn push_members(text: &mut String, kind: &TypeDefKind) -> Result<(), AllocError> {
    match kind {
        TypeDefKind::Record(record) => {
            for field in record.fields.as_slice() {
                push_docs(text, field.name.as_str(), &field.docs)?;
            }
        }
        TypeDefKind::Flags(flags) => {
            for flag in flags.flags.as_slice() {
                push_docs(text, flag.name.as_str(), &flag.docs)?;
            }
        }
        TypeDefKind::Variant(variant) => {
            for case in variant.cases.as_slice() {
                push_docs(text, case.name.as_str(), &case.docs)?;
            }
        }
        TypeDefKind::Enum(of) => {
            for case in of.cases.as_slice() {
                push_docs(text, case.name.as_str(), &case.docs)?;
            }
        }
        _ => {}
    }
    Ok(())
}

/// Puts the docs of an interface and of its functions after a text.
fn push_interface(text: &mut String, interface: &Interface) -> Result<(), AllocError> {
    if let Some(name) = &interface.name {
        push_docs(text, name.as_str(), &interface.docs)?;
    }
    for place in 0..interface.functions.len() {
        if let Some((name, function)) = interface.functions.get_index(place) {
            push_docs(text, name, &function.docs)?;
        }
    }
    Ok(())
}

/// Puts a key of a world after a text, on a line of its own.
pub fn push_key(text: &mut String, key: &WorldKey) -> Result<(), AllocError> {
    text.push_str("\n")?;
    match key {
        WorldKey::Name(name) => text.push_str(name.as_str()),
        WorldKey::Interface(id) => write!(text, "interface-{}", id.index()),
    }
}

/// Puts a key of a world and the docs of what it has by this key after a text, as a line.
fn push_key_docs(text: &mut String, key: &WorldKey, docs: &Docs) -> Result<(), AllocError> {
    let Some(contents) = &docs.contents else {
        return Ok(());
    };
    push_key(text, key)?;
    push_lines(text, contents.as_str())
}

/// Puts the docs of what a world has by this key after a text, if it is a function or an interface.
fn push_item(text: &mut String, key: &WorldKey, item: &WorldItem) -> Result<(), AllocError> {
    match item {
        WorldItem::Function(function) => push_key_docs(text, key, &function.docs),
        WorldItem::Interface { docs, .. } => push_key_docs(text, key, docs),
        WorldItem::Type_ { .. } => Ok(()),
    }
}

/// Puts the docs of functions and of interfaces on a side of a world after a text.
fn push_side(text: &mut String, items: &Table<WorldKey, WorldItem>) -> Result<(), AllocError> {
    for place in 0..items.len() {
        if let Some((key, item)) = items.get_index(place) {
            push_item(text, key, item)?;
        }
    }
    Ok(())
}

/// Puts the docs of a world, of its functions, and of interfaces that it imports and exports after a text.
fn push_world(text: &mut String, world: &World) -> Result<(), AllocError> {
    push_docs(text, world.name.as_str(), &world.docs)?;
    push_side(text, &world.imports)?;
    push_side(text, &world.exports)
}

/// Puts the docs of types and of their parts after a text.
fn push_types(text: &mut String, types: &Types) -> Result<(), AllocError> {
    for ty in types.iter() {
        if let Some(name) = &ty.name {
            push_docs(text, name.as_str(), &ty.docs)?;
        }
        push_members(text, &ty.kind)?;
    }
    Ok(())
}

/// Puts the docs of interfaces and of their functions after a text.
fn push_interfaces(
    text: &mut String,
    interfaces: &Arena<Interface, InterfacePlace>,
) -> Result<(), AllocError> {
    for interface in interfaces.iter() {
        push_interface(text, interface)?;
    }
    Ok(())
}

/// Puts the docs of worlds and of what they have after a text.
fn push_worlds(text: &mut String, worlds: &Arena<World, WorldPlace>) -> Result<(), AllocError> {
    for world in worlds.iter() {
        push_world(text, world)?;
    }
    Ok(())
}

/// Puts the docs of a package and of what it holds after a text, each on its line.
pub fn push_docs_of(text: &mut String, package: &UnresolvedPackage) -> Result<(), AllocError> {
    text.push_str("docs")?;
    push_docs(text, "package", &package.docs)?;
    push_types(text, &package.types)?;
    push_interfaces(text, &package.interfaces)?;
    push_worlds(text, &package.worlds)?;
    text.push_str("\n")
}
