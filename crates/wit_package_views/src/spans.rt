//! The view `spans`: what is where a package and its entries are; and the view `required`: what
//! handles require of other packages, and where.

use crate::slices::{push_slice, push_slices};
use std::alloc::AllocError;
use wit_model::UnresolvedPackage;
use wit_text::SourceMap;

/// Puts what is where the items of a package are after a text.
fn push_items(
    text: &mut String,
    map: &SourceMap,
    package: &UnresolvedPackage,
) -> Result<(), AllocError> {
    text.push_str("\ninterfaces")?;
    for interface in package.interfaces.iter() {
        push_slice(text, map, interface.span)?;
    }
    text.push_str("\nworlds")?;
    for world in package.worlds.iter() {
        push_slice(text, map, world.span)?;
    }
    Ok(())
}

/// Puts what is where a package and its entries are after a text.
pub fn push_spans(
    text: &mut String,
    map: &SourceMap,
    package: &UnresolvedPackage,
) -> Result<(), AllocError> {
    text.push_str("package")?;
    push_slice(text, map, package.package_name_span())?;
    text.push_str("\nunknown")?;
    push_slices(text, map, package.unknown_type_spans())?;
    text.push_str("\nforeign")?;
    push_slices(text, map, package.foreign_dep_spans())?;
    text.push_str("\ntypes")?;
    for ty in package.types.iter() {
        push_slice(text, map, ty.span)?;
    }
    push_items(text, map, package)?;
    text.push_str("\n")
}

/// Puts each type that a package requires to be a resource after a text, and what is at its span.
pub fn push_required(
    text: &mut String,
    map: &SourceMap,
    package: &UnresolvedPackage,
) -> Result<(), AllocError> {
    text.push_str("required")?;
    for required in package.required_resource_types() {
        let place = required.0.index();
        write!(text, " #{place}")?;
        push_slice(text, map, required.1)?;
    }
    text.push_str("\n")
}
