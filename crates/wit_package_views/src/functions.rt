//! The view `functions`: the id of each interface with the names that its functions are exported by, and
//! for each function what its kind says, its types, and the futures and streams in these.

use std::alloc::{AllocError, Global};
use wit_model::{
    Function, Interface, Mangling, UnresolvedPackage, World, WorldItem, reaches_unknown,
};
use wit_package_names::PackageName;
use wit_types::{Type, Types, is_backward};

/// Puts a type after a text.
fn push_type(text: &mut String, ty: Type) -> Result<(), AllocError> {
    match ty {
        Type::Id(id) => write!(text, " #{}", id.index()),
        _ => write!(text, " {ty:?}"),
    }
}

/// Puts the names after a text that a function of an interface is exported by, by each spelling.
fn push_exports(
    alloc: Global,
    text: &mut String,
    interface: Option<&str>,
    function: &Function,
) -> Result<(), AllocError> {
    let legacy = function.core_export_name(alloc, interface, Mangling::Legacy)?;
    text.push_str("\n  ")?;
    text.push_str(legacy.as_str())?;
    let standard = function.core_export_name(alloc, interface, Mangling::Standard32)?;
    text.push_str(" ")?;
    text.push_str(standard.as_str())
}

/// Puts what the kind of a function says after a text.
fn push_kind(text: &mut String, function: &Function) -> Result<(), AllocError> {
    if function.kind.is_async() {
        text.push_str(" async")?;
    }
    if let Some(accessor) = function.kind.accessor() {
        write!(text, " {accessor:?}")?;
    }
    if let Some(resource) = function.kind.resource() {
        write!(text, " of #{}", resource.index())?;
    }
    Ok(())
}

/// Puts the futures and streams of a function after a text, or that it reaches another package's type.
fn push_awaited(
    alloc: Global,
    text: &mut String,
    types: &Types,
    function: &Function,
) -> Result<(), AllocError> {
    if !is_backward(types) {
        return text.push_str(" forward");
    }
    if reaches_unknown(types, function) {
        return text.push_str(" unknown");
    }
    for id in &function.find_futures_and_streams(alloc, types)? {
        write!(text, " #{}", id.index())?;
    }
    Ok(())
}

/// Puts a function after a text, in lines.
fn push_function(
    alloc: Global,
    text: &mut String,
    types: &Types,
    interface: Option<&str>,
    function: &Function,
) -> Result<(), AllocError> {
    text.push_str(function.name.as_str())?;
    push_kind(text, function)?;
    push_exports(alloc, text, None, function)?;
    if interface.is_some() {
        push_exports(alloc, text, interface, function)?;
    }
    text.push_str("\n  types")?;
    for ty in function.parameter_and_result_types() {
        push_type(text, ty)?;
    }
    text.push_str("\n  awaited")?;
    push_awaited(alloc, text, types, function)?;
    if function.is_constructor_shorthand(types) {
        text.push_str("\n  shorthand")?;
    }
    text.push_str("\n")
}

/// Puts an interface of a package after a text, and its functions.
fn push_interface(
    alloc: Global,
    text: &mut String,
    package: &PackageName,
    types: &Types,
    interface: &Interface,
) -> Result<(), AllocError> {
    let Some(name) = &interface.name else {
        return Ok(());
    };
    let id = package.interface_id(alloc, name.as_str())?;
    write!(text, "interface {}\n", id.as_str())?;
    for place in 0..interface.functions.len() {
        if let Some((_, function)) = interface.functions.get_index(place) {
            push_function(alloc, text, types, Some(id.as_str()), function)?;
        }
    }
    Ok(())
}

/// Puts the functions of a world after a text.
fn push_world(
    alloc: Global,
    text: &mut String,
    types: &Types,
    world: &World,
) -> Result<(), AllocError> {
    write!(text, "world {}\n", world.name.as_str())?;
    for place in 0..world.imports.len() {
        if let Some((_, WorldItem::Function(function))) = world.imports.get_index(place) {
            push_function(alloc, text, types, None, function)?;
        }
    }
    for place in 0..world.exports.len() {
        if let Some((_, WorldItem::Function(function))) = world.exports.get_index(place) {
            push_function(alloc, text, types, None, function)?;
        }
    }
    Ok(())
}

/// Puts the functions of a package after a text.
pub fn push_functions(
    alloc: Global,
    text: &mut String,
    package: &UnresolvedPackage,
) -> Result<(), AllocError> {
    let name = package.name.to_text(alloc)?;
    write!(text, "package {}\n", name.as_str())?;
    for interface in package.interfaces.iter() {
        push_interface(alloc, text, &package.name, &package.types, interface)?;
    }
    for world in package.worlds.iter() {
        push_world(alloc, text, &package.types, world)?;
    }
    Ok(())
}
