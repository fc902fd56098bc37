//! Interfaces and worlds of other packages in a listing.
ghost use Rattle.std.specs.Prelude.{◌≡◌, ◌++◌, ◌∷◌, OnOk, string_bytes};
ghost use Rattle.std.specs.List.{flat_map};
ghost use Rattle.wit_package_names.specs.PackageName.{name_text};
ghost use Rattle.wit_listing.specs.ListingTexts.{Adds};
ghost use Rattle.wit_listing.specs.ForeignLines.{dep_lines, item_line, item_place};

use crate::package_names::push_package_name;
use crate::small_texts::push_marked;
use std::alloc::AllocError;
use wit_maps::{Table, TextTable};
use wit_model::AstItem;
use wit_package_names::PackageName;
use wit_types::Stability;
use wit_values::Row;

/// An interface or a world by its place.
fn push_place(text: &mut String, item: AstItem) -> Result<(), AllocError>
    ensures { OnOk result (Adds text.old text.new (item_place item)) }
{
    match item {
        AstItem::Interface(id) => push_marked(text, 'i', id.index()),
        AstItem::World(id) => push_marked(text, 'w', id.index()),
    }
}

/// The name of an item after that of its package.
fn push_path(text: &mut String, package_name: &PackageName, name: &str) -> Result<(), AllocError>
    ensures { OnOk result (Adds text.old text.new (name_text package_name.now ++ (32 ∷ name.now))) }
{
    push_package_name(text, package_name)?;
    text.push(' ')?;
    text.push_str(name)
}

/// The line of an item: its package and name, its place, and how many paths lead to it.
fn push_item(
    text: &mut String,
    package_name: &PackageName,
    name: &str,
    entry: &(AstItem, Row<Stability>),
) -> Result<(), AllocError>
    ensures { OnOk result (Adds text.old text.new (item_line package_name.now (name.now, entry.now))) }
{
    let (item, visits) = entry;
    push_path(text, package_name, name)?;
    text.push(' ')?;
    push_place(text, *item)?;
    push_marked(text, ' ', visits.len())?;
    text.push('\n')
}

/// The lines of the items of a package.
fn push_items(
    text: &mut String,
    package_name: &PackageName,
    items: &TextTable<(AstItem, Row<Stability>)>,
) -> Result<(), AllocError>
    ensures { OnOk result (Adds text.old text.new (flat_map (item_line package_name.now) items.now)) }
{
    for place in 0..items.len() {
        let Some((name, entry)) = items.get_index(place) else {
            unreachable!()
        };
        push_item(text, package_name, name, entry)?;
    }
    Ok(())
}

/// The lines of the items of all other packages, in order.
pub fn push_deps(
    text: &mut String,
    deps: &Table<PackageName, TextTable<(AstItem, Row<Stability>)>>,
) -> Result<(), AllocError>
    ensures { OnOk result (Adds text.old text.new (flat_map dep_lines deps.now)) }
{
    for place in 0..deps.len() {
        let Some((package_name, items)) = deps.get_index(place) else {
            unreachable!()
        };
        push_items(text, package_name, items)?;
    }
    Ok(())
}
