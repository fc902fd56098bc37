//! The interfaces of a package in its listing.
ghost use Rattle.std.specs.Prelude.{◌≡◌, ◌++◌, OnOk, codes, string_bytes, List, ℕ};
ghost use Rattle.std.specs.List.{flat_map};
ghost use Rattle.wit_listing.specs.Lists.{numbered};
ghost use Rattle.wit_listing.specs.ListingTexts.{Adds};
ghost use Rattle.wit_listing.specs.Interfaces.{function_line, interface_lines, named_type_line, name_text};

use crate::functions::push_signature;
use crate::small_texts::{push_marked, push_numbered, push_stability};
use std::alloc::AllocError;
use wit_maps::TextTable;
use wit_model::{Function, Interface};
use wit_types::{Arena, InterfacePlace, TypeId};
use wit_values::Text;

/// A name, or `-` where there is none.
fn push_name(text: &mut String, name: &Option<Text>) -> Result<(), AllocError>
    ensures { OnOk result (Adds text.old text.new (name_text name.now)) }
{
    match name {
        Some(name) => text.push_str(name.as_str()),
        None => text.push('-'),
    }
}

/// A name after two blanks.
fn push_indented(text: &mut String, name: &str) -> Result<(), AllocError>
    ensures { OnOk result (Adds text.old text.new (codes "  " ++ name.now)) }
{
    text.push(' ')?;
    text.push(' ')?;
    text.push_str(name)
}

/// The line of a type's name.
fn push_named_type(text: &mut String, name: &str, id: TypeId) -> Result<(), AllocError>
    ensures { OnOk result (Adds text.old text.new (named_type_line (name.now, id))) }
{
    push_indented(text, name)?;
    push_numbered(text, " = type #", id.index())?;
    text.push('\n')
}

fn push_named_types(text: &mut String, types: &TextTable<TypeId>) -> Result<(), AllocError>
    ensures { OnOk result (Adds text.old text.new (flat_map named_type_line types.now)) }
{
    for place in 0..types.len() {
        let Some((name, id)) = types.get_index(place) else {
            unreachable!()
        };
        push_named_type(text, name, *id)?;
    }
    Ok(())
}

/// The line of a function.
pub fn push_function(text: &mut String, name: &str, function: &Function) -> Result<(), AllocError>
    ensures { OnOk result (Adds text.old text.new (function_line (name.now, function.now))) }
{
    push_indented(text, name)?;
    push_signature(text, function)?;
    push_stability(text, &function.stability)?;
    text.push('\n')
}

fn push_functions(text: &mut String, functions: &TextTable<Function>) -> Result<(), AllocError>
    ensures { OnOk result (Adds text.old text.new (flat_map function_line functions.now)) }
{
    for place in 0..functions.len() {
        let Some((name, function)) = functions.get_index(place) else {
            unreachable!()
        };
        push_function(text, name, function)?;
    }
    Ok(())
}

/// The line of an interface, and those of what it holds.
fn push_interface(text: &mut String, place: usize, interface: &Interface) -> Result<(), AllocError>
    ensures { OnOk result (Adds text.old text.new (interface_lines place interface.now)) }
{
    push_marked(text, 'i', place)?;
    text.push(' ')?;
    push_name(text, &interface.name)?;
    push_stability(text, &interface.stability)?;
    text.push('\n')?;
    push_named_types(text, &interface.types)?;
    push_functions(text, &interface.functions)
}

/// The lines of all interfaces, in order.
pub fn push_interfaces(
    text: &mut String,
    interfaces: &Arena<Interface, InterfacePlace>,
) -> Result<(), AllocError>
    ensures { OnOk result (Adds text.old text.new (numbered interface_lines 0 interfaces.now)) }
{
    for place in 0..interfaces.len() {
        push_interface(text, place, interfaces.get(interfaces.id_at(place)))?;
    }
    Ok(())
}
