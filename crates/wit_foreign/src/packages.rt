//! The packages that are named, each with its items.
ghost use Rattle.std.specs.Prelude.{◌≡◌, [], IfOk, OnOk, map, not, nat_eq, position};
ghost use Rattle.std.specs.Cmp.Lexicographic.{pointwise};
ghost use Rattle.std.specs.Map.{lookup};
ghost use Rattle.std.specs.Option.{is_some, unwrap_or};
ghost use Rattle.indexmap.specs.IndexMap.{insert_entry};
ghost use Rattle.wit_syntax.specs.Address.{same_package};
ghost use Rattle.wit_foreign.specs.Kept.{row_more, table_more};

use crate::package_items::{Items, add_visit_of};
use std::alloc::{AllocError, Global};
use wit_maps::{Table, TextTable};
use wit_model::AstItem;
use wit_package_names::PackageName;
use wit_types::Stability;

/// Packages, each with its items.
pub type Packages = Table<PackageName, Items>;

/// The place of a package.
fn place_of(packages: &Packages, key: &PackageName) -> Option<usize>
    ensures { result ≡ position (same_package key.now) (map (λ p. p.0) packages.now) }
{
    packages.get_index_of(key)
}

/// The items of a package, of which the first visit is stated.
fn first_items(
    alloc: Global,
    name: &str,
    entry: AstItem,
    stability: Stability,
) -> Result<Items, AllocError>
    ensures { IfOk result (λ items. items ≡ row_more [] name.now entry stability) }
{
    let mut items = TextTable::new(alloc);
    add_visit_of(alloc, &mut items, name, entry, stability)?;
    Ok(items)
}

/// Adds a package, with the item of its first visit.
fn add_package(
    alloc: Global,
    packages: &mut Packages,
    key: PackageName,
    name: &str,
    entry: AstItem,
    stability: Stability,
) -> Result<(), AllocError>
    ensures { OnOk result (packages.new ≡ insert_entry same_package packages.old key (row_more [] name.now entry stability)) }
{
    let items = first_items(alloc, name, entry, stability)?;
    packages.put(key, items)
}

/// Adds a visit of an item of a package, of a stability; the item gets the entry if nothing has
/// visited it yet. Tells whether it gets it.
pub(crate) fn add_visit_in(
    alloc: Global,
    packages: &mut Packages,
    key: PackageName,
    name: &str,
    entry: AstItem,
    stability: Stability,
) -> Result<bool, AllocError>
    ensures packages { OnOk result (packages.new ≡ table_more packages.old key name.now entry stability) }
    ensures fresh { IfOk result (λ fresh. fresh ≡ not (is_some (lookup (pointwise nat_eq name.now) (unwrap_or (lookup (same_package key) packages.old) [])))) }
{
    match place_of(packages, &key) {
        Some(place) => {
            drop(key);
            let items = packages.value_mut(place);
            Ok(add_visit_of(alloc, items, name, entry, stability)?)
        }
        None => {
            add_package(alloc, packages, key, name, entry, stability)?;
            Ok(true)
        }
    }
}
