//! Borrowed packages, and what they have.

use crate::answers::{push_answer, push_shown};
use std::alloc::{AllocError, Global};
use tulfjak::package::Type;
use tulfjak::refs::{FunctionRef, InterfaceRef, ItemRef, TypeRef, WorldRef};
use tulfjak::{PackageRef, ResolvedGroup};

/// Adds the id of a type's owner, and of the resource of a handle.
fn push_owner(ty: &TypeRef<'_>, text: &mut String) -> Result<(), AllocError> {
    if let Some(interface) = ty.interface() {
        push_answer(text, "TypeRef::interface", &interface.id())?;
    }
    if let Some(world) = ty.world() {
        push_answer(text, "TypeRef::world", &world.id())?;
    }
    if let Some(resource) = ty.resource() {
        push_answer(text, "TypeRef::resource", &resource.id())?;
    }
    Ok(())
}

/// Adds what calls on a type return.
fn push_type(ty: &TypeRef<'_>, text: &mut String) -> Result<(), AllocError> {
    let names = (ty.name(), ty.owner_name(), ty.get().kind.as_str());
    push_answer(text, "TypeRef::name", &names)?;
    push_answer(text, "TypeRef::id", &(ty.id(), ty.end().id()))?;
    push_owner(ty, text)
}

/// Adds what calls on a function return.
fn push_function(
    alloc: Global,
    function: &FunctionRef<'_>,
    text: &mut String,
) -> Result<(), AllocError> {
    let names = (&function.get().name, function.item_name());
    push_answer(text, "FunctionRef::item_name", &names)?;
    if let Some(resource) = function.resource() {
        push_answer(text, "FunctionRef::resource", &resource.name())?;
    }
    let found = function.find_futures_and_streams(alloc)?;
    push_answer(text, "find_futures_and_streams", &found)
}

/// Adds the names of an interface.
fn push_path(
    alloc: Global,
    interface: &InterfaceRef<'_>,
    text: &mut String,
) -> Result<(), AllocError> {
    let answers = (interface.id(), interface.name(), interface.get().span);
    push_answer(text, "InterfaceRef::id", &answers)?;
    push_answer(text, "InterfaceRef::path", &interface.path())?;
    let id = interface.interface_id(alloc)?;
    push_answer(text, "InterfaceRef::interface_id", &id)
}

/// Adds what calls on an interface return.
fn push_interface(
    alloc: Global,
    interface: &InterfaceRef<'_>,
    text: &mut String,
) -> Result<(), AllocError> {
    push_path(alloc, interface, text)?;
    for (name, ty) in interface.types() {
        push_answer(text, "InterfaceRef::types", &(name, ty.id()))?;
    }
    for function in interface.functions() {
        push_function(alloc, &function, text)?;
    }
    Ok(())
}

/// Adds the entry of an import or an export.
fn push_entry(item: &ItemRef<'_>, text: &mut String) -> Result<(), AllocError> {
    push_answer(text, "ItemRef::get", &item.get().span())?;
    if let Some(interface) = item.interface() {
        push_answer(text, "ItemRef::interface", &interface.id())?;
    }
    if let Some(function) = item.function() {
        push_answer(text, "ItemRef::function", &function.item_name())?;
    }
    if let Some(ty) = item.ty() {
        push_answer(text, "ItemRef::ty", &ty.id())?;
    }
    Ok(())
}

/// Adds what calls on an import or an export return.
fn push_item(alloc: Global, item: &ItemRef<'_>, text: &mut String) -> Result<(), AllocError> {
    push_answer(text, "ItemRef::name", &(item.key(), item.name(alloc)?))?;
    push_entry(item, text)
}

/// Adds what calls on a world return.
fn push_world(alloc: Global, world: &WorldRef<'_>, text: &mut String) -> Result<(), AllocError> {
    let answers = (world.id(), world.name(), world.get().span);
    push_answer(text, "WorldRef::id", &answers)?;
    for item in world.imports() {
        push_item(alloc, &item, text)?;
    }
    for item in world.exports() {
        push_item(alloc, &item, text)?;
    }
    Ok(())
}

/// Adds what a package has under these names.
fn push_found(package: &PackageRef<'_>, text: &mut String) -> Result<(), AllocError> {
    for name in ["goods", "front", "i", "e", "w"] {
        if let Some(interface) = package.interface(name) {
            push_answer(text, "PackageRef::interface", &interface.id())?;
        }
        if let Some(world) = package.world(name) {
            push_answer(text, "PackageRef::world", &world.id())?;
        }
    }
    Ok(())
}

/// Adds the entries of a package.
fn push_entries(package: &PackageRef<'_>, text: &mut String) -> Result<(), AllocError> {
    for ty in package.types() {
        if let Some(entry) = package.entry(Type::Id(ty.id())) {
            push_type(&entry, text)?;
        }
    }
    Ok(())
}

/// Adds what calls on a package return.
fn push_package(
    alloc: Global,
    package: &PackageRef<'_>,
    text: &mut String,
) -> Result<(), AllocError> {
    push_shown(text, "PackageRef::get", &package.get().name)?;
    push_found(package, text)?;
    push_entries(package, text)?;
    for interface in package.interfaces() {
        push_interface(alloc, &interface, text)?;
    }
    for world in package.worlds() {
        push_world(alloc, &world, text)?;
    }
    Ok(())
}

/// Adds what calls on a group return.
pub fn push_borrowed(
    alloc: Global,
    group: &ResolvedGroup,
    text: &mut String,
) -> Result<(), AllocError> {
    push_package(alloc, &group.main(), text)?;
    for package in group.nested() {
        push_package(alloc, &package, text)?;
    }
    Ok(())
}
