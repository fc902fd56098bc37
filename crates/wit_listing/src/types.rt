//! The types of a package in its listing.
ghost use Rattle.std.specs.Prelude.{◌≡◌, ◌++◌, OnOk, string_bytes};
ghost use Rattle.wit_listing.specs.Lists.{numbered};
ghost use Rattle.wit_listing.specs.ListingTexts.{Adds};
ghost use Rattle.wit_listing.specs.Types.{owner_place, owner_text, type_line};

use crate::kinds::push_kind;
use crate::small_texts::{push_marked, push_stability};
use std::alloc::AllocError;
use wit_types::{Arena, TypeDef, TypeOwner, TypePlace};
use wit_values::Text;

/// The place of a world or an interface, or `-`.
fn push_owner_place(text: &mut String, owner: TypeOwner) -> Result<(), AllocError>
    ensures { OnOk result (Adds text.old text.new (owner_place owner)) }
{
    match owner {
        TypeOwner::World(world) => push_marked(text, 'w', world.index()),
        TypeOwner::Interface(interface) => push_marked(text, 'i', interface.index()),
        TypeOwner::None => text.push('-'),
    }
}

/// The name of a type after that of its owner, or `-`.
fn push_owner(text: &mut String, owner: TypeOwner, name: &Option<Text>) -> Result<(), AllocError>
    ensures { OnOk result (Adds text.old text.new (owner_text owner name.now)) }
{
    match name {
        Some(name) => {
            push_owner_place(text, owner)?;
            text.push('.')?;
            text.push_str(name.as_str())
        }
        None => text.push('-'),
    }
}

/// The line of a type: its place, its owner and name, and what it is.
fn push_type_line(text: &mut String, place: usize, def: &TypeDef) -> Result<(), AllocError>
    ensures { OnOk result (Adds text.old text.new (type_line place def.now)) }
{
    push_marked(text, '#', place)?;
    text.push(' ')?;
    push_owner(text, def.owner, &def.name)?;
    push_kind(text, &def.kind)?;
    push_stability(text, &def.stability)?;
    text.push('\n')
}

/// The lines of all types, in order.
pub fn push_type_lines(
    text: &mut String,
    types: &Arena<TypeDef, TypePlace>,
) -> Result<(), AllocError>
    ensures { OnOk result (Adds text.old text.new (numbered type_line 0 types.now)) }
{
    for place in 0..types.len() {
        push_type_line(text, place, types.get(types.id_at(place)))?;
    }
    Ok(())
}
