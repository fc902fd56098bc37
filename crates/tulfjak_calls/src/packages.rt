//! Packages as data: types, interfaces and worlds, and spans that move.

use crate::answers::push_answer;
use crate::bare::push_bare;
use crate::functions::push_function;
use crate::items::push_items;
use crate::names::push_name;
use std::alloc::{AllocError, Global};
use tulfjak::UnresolvedPackage;
use tulfjak::package::{HasSpans, Interface, TypeDefKind, Types, World, is_backward, is_same_kind};

/// More cases than a type of these has.
const MANY: usize = 1000;

/// Adds the spans of a package.
fn push_spans(text: &mut String, package: &UnresolvedPackage) -> Result<(), AllocError> {
    let spans = (package.package_name_span(), package.unknown_type_spans());
    push_answer(text, "package_name_span", &spans)?;
    let foreign = (
        package.foreign_dep_spans(),
        package.required_resource_types(),
    );
    push_answer(text, "foreign_dep_spans", &foreign)
}

/// Whether the spans of a value can be moved, so that another value comes of it.
pub fn is_moved<T: HasSpans + Clone + PartialEq + Drop>(value: &T) -> Result<bool, AllocError> {
    let mut copy = value.clone()?;
    if copy.spans_fit(100) {
        copy.adjust_spans(100);
    }
    Ok(copy != *value)
}

/// Adds the integers of flags or cases.
fn push_layout(text: &mut String, kind: &TypeDefKind) -> Result<(), AllocError> {
    match kind {
        TypeDefKind::Flags(flags) => {
            let repr = flags.repr();
            push_answer(text, "Flags::repr", &(repr.count(), repr))
        }
        TypeDefKind::Variant(variant) if variant.cases.len() < MANY => {
            push_answer(text, "Variant::tag", &variant.tag())
        }
        TypeDefKind::Enum(choice) if choice.cases.len() < MANY => {
            push_answer(text, "Enum::tag", &choice.tag())
        }
        _ => Ok(()),
    }
}

/// Adds what calls on types return.
fn push_types(text: &mut String, types: &Types) -> Result<(), AllocError> {
    push_answer(text, "is_backward", &is_backward(types))?;
    for ty in types.iter() {
        let answers = (
            ty.kind.as_str(),
            is_same_kind(&ty.kind, &ty.kind),
            is_moved(ty)?,
        );
        push_answer(text, "TypeDefKind::as_str", &answers)?;
        push_layout(text, &ty.kind)?;
    }
    Ok(())
}

/// Adds what calls on an interface return.
fn push_interface(
    alloc: Global,
    text: &mut String,
    types: &Types,
    interface: &Interface,
) -> Result<(), AllocError> {
    push_answer(text, "Interface", &(&interface.name, is_moved(interface)?))?;
    for function in interface.functions.values() {
        push_function(alloc, text, types, function)?;
    }
    Ok(())
}

/// Adds what calls on a world return.
fn push_world(
    alloc: Global,
    text: &mut String,
    types: &Types,
    world: &World,
) -> Result<(), AllocError> {
    push_answer(text, "World", &(&world.name, is_moved(world)?))?;
    push_items(alloc, text, types, &world.imports)?;
    push_items(alloc, text, types, &world.exports)
}

/// Adds what calls on a package return.
pub fn push_package(
    alloc: Global,
    text: &mut String,
    package: &UnresolvedPackage,
) -> Result<(), AllocError> {
    push_name(alloc, text, &package.name)?;
    push_bare(alloc, text, &package.name)?;
    push_spans(text, package)?;
    push_types(text, &package.types)?;
    for interface in package.interfaces.iter() {
        push_interface(alloc, text, &package.types, interface)?;
    }
    for world in package.worlds.iter() {
        push_world(alloc, text, &package.types, world)?;
    }
    push_answer(text, "adjust_spans", &is_moved(package)?)
}
