//! Names of interfaces and worlds, and the packages that declare them.
ghost use Rattle.std.specs.Prelude.{◌≡◌, IfOk, string_bytes};
ghost use Rattle.std.specs.Map.Iter.{deref_pair};
ghost use Rattle.std.specs.Option.{option_copied, option_map};
ghost use Rattle.wit_resolved.specs.Lookups.{first_of, foreign_name, interface_id, name_at, name_of_item, own_name, path_of, world_name};

use std::alloc::{AllocError, Global};
use wit_maps::{Table, TextTable};
use wit_model::{AstItem, UnresolvedPackage};
use wit_package_names::PackageName;
use wit_types::Stability;
use wit_values::Row;

/// The name of an item, if it is the interface at a place.
fn name_of_item<'p>(name: &'p str, item: AstItem, place: usize) -> Option<&'p str>
    ensures { option_copied result ≡ name_of_item place name.now item }
{
    match item {
        AstItem::Interface(id) => {
            if id.index() == place {
                Some(name)
            } else {
                None
            }
        }
        AstItem::World(_) => None,
    }
}

/// The name among a package's items of the interface at a place, if it is one of them.
fn name_among(items: &TextTable<(AstItem, Row<Stability>)>, place: usize) -> Option<&str>
    ensures { option_copied result ≡ first_of (name_at place) items.now }
{
    for at in 0..items.len() {
        let Some((name, item)) = items.get_index(at) else {
            unreachable!()
        };
        if let Some(found) = name_of_item(name, item.0, place) {
            return Some(found);
        }
    }
    None
}

/// The first of the foreign dependencies that has the interface at a place, with its name there.
fn foreign_name(
    deps: &Table<PackageName, TextTable<(AstItem, Row<Stability>)>>,
    place: usize,
) -> Option<(&PackageName, &str)>
    ensures { option_map deref_pair result ≡ foreign_name place deps.now }
{
    for at in 0..deps.len() {
        let Some((owner, items)) = deps.get_index(at) else {
            unreachable!()
        };
        if let Some(name) = name_among(items, place) {
            return Some((owner, name));
        }
    }
    None
}

/// The name of the interface at a place, if the package declares it.
pub(crate) fn own_name(resolved: &UnresolvedPackage, place: usize) -> Option<&str>
    ensures { option_copied result ≡ own_name resolved.now place }
{
    if place >= resolved.interfaces.len() {
        return None;
    }
    let interface = resolved.interfaces.get(resolved.interfaces.id_at(place));
    match &interface.name {
        Some(name) => Some(name.as_str()),
        None => None,
    }
}

/// The name of the world at a place.
pub(crate) fn world_name(resolved: &UnresolvedPackage, place: usize) -> Option<&str>
    ensures { option_copied result ≡ world_name resolved.now place }
{
    if place >= resolved.worlds.len() {
        return None;
    }
    let world = resolved.worlds.get(resolved.worlds.id_at(place));
    Some(world.name.as_str())
}

/// The package that declares the interface at a place, and its name there.
pub(crate) fn path_of(resolved: &UnresolvedPackage, place: usize) -> Option<(&PackageName, &str)>
    ensures { option_map deref_pair result ≡ path_of resolved.now place }
{
    match own_name(resolved, place) {
        Some(name) => Some((&resolved.name, name)),
        None => foreign_name(&resolved.foreign_deps, place),
    }
}

/// The id of the interface at a place.
pub(crate) fn interface_id(
    alloc: Global,
    resolved: &UnresolvedPackage,
    place: usize,
) -> Result<Option<String>, AllocError>
    ensures { IfOk result (λ id. option_map string_bytes id ≡ interface_id resolved.now place) }
{
    match path_of(resolved, place) {
        Some((owner, name)) => {
            let id = owner.interface_id(alloc, name)?;
            Ok(Some(id))
        }
        None => Ok(None),
    }
}
