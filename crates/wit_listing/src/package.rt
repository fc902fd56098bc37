//! A package in a listing.
ghost use Rattle.std.specs.Prelude.{◌≡◌, ◌++◌, OnOk, string_bytes};
ghost use Rattle.wit_listing.specs.ListingTexts.{Adds};
ghost use Rattle.wit_listing.specs.Package.{count_line, foreign_text, header_text, interfaces_text, package_text, types_text, worlds_text};

use crate::foreign::push_deps;
use crate::interfaces::push_interfaces;
use crate::package_names::push_package_name;
use crate::small_texts::push_marked;
use crate::types::push_type_lines;
use crate::worlds::push_worlds;
use std::alloc::AllocError;
use wit_maps::{Table, TextTable};
use wit_model::{AstItem, Interface, UnresolvedPackage, World};
use wit_package_names::PackageName;
use wit_types::{Arena, InterfacePlace, Stability, TypeDef, TypePlace, WorldPlace};
use wit_values::Row;

/// A word and a number in a line.
fn push_count(text: &mut String, word: &str, count: usize) -> Result<(), AllocError>
    ensures { OnOk result (Adds text.old text.new (count_line word.now count)) }
{
    text.push_str(word)?;
    push_marked(text, ' ', count)?;
    text.push('\n')
}

/// The types after their number.
fn push_types(text: &mut String, types: &Arena<TypeDef, TypePlace>) -> Result<(), AllocError>
    ensures { OnOk result (Adds text.old text.new (types_text types.now)) }
{
    push_count(text, "types", types.len())?;
    push_type_lines(text, types)
}

/// The interfaces after their number.
fn push_all_interfaces(
    text: &mut String,
    interfaces: &Arena<Interface, InterfacePlace>,
) -> Result<(), AllocError>
    ensures { OnOk result (Adds text.old text.new (interfaces_text interfaces.now)) }
{
    push_count(text, "interfaces", interfaces.len())?;
    push_interfaces(text, interfaces)
}

/// The worlds after their number.
fn push_all_worlds(
    text: &mut String,
    interfaces: &Arena<Interface, InterfacePlace>,
    worlds: &Arena<World, WorldPlace>,
) -> Result<(), AllocError>
    ensures { OnOk result (Adds text.old text.new (worlds_text interfaces.now worlds.now)) }
{
    push_count(text, "worlds", worlds.len())?;
    push_worlds(text, interfaces, worlds)
}

fn push_header(text: &mut String, name: &PackageName) -> Result<(), AllocError>
    ensures { OnOk result (Adds text.old text.new (header_text name.now)) }
{
    text.push_str("package ")?;
    push_package_name(text, name)?;
    text.push('\n')
}

/// The items of other packages after the number of these packages.
fn push_foreign(
    text: &mut String,
    deps: &Table<PackageName, TextTable<(AstItem, Row<Stability>)>>,
) -> Result<(), AllocError>
    ensures { OnOk result (Adds text.old text.new (foreign_text deps.now)) }
{
    push_count(text, "foreign", deps.len())?;
    push_deps(text, deps)
}

/// A package: its name, its types, its interfaces, its worlds, and what it names of other packages.
pub fn push_package(text: &mut String, resolved: &UnresolvedPackage) -> Result<(), AllocError>
    ensures { OnOk result (Adds text.old text.new (package_text resolved.now)) }
{
    push_header(text, &resolved.name)?;
    push_types(text, &resolved.types)?;
    push_all_interfaces(text, &resolved.interfaces)?;
    push_all_worlds(text, &resolved.interfaces, &resolved.worlds)?;
    push_foreign(text, &resolved.foreign_deps)
}
