//! The stability of an unnamed type: that of the definition that it is in, or of its parts.
ghost use Rattle.std.specs.Prelude.{◌≡◌, IfOk, map};
ghost use Rattle.std.specs.Option.{option_copied};
ghost use Rattle.wit_types.specs.InnerTypes.{handled, slots};
ghost use Rattle.wit_syntax.specs.Metadata.{first_known};
ghost use Rattle.wit_arena.specs.Kind.{kind_of};
ghost use Rattle.wit_arena.specs.Occurrences.{stability_at, settled as the_settled};
ghost use Rattle.wit_entries.specs.EntryFaults.{known as the_known, slot_stability};

use std::alloc::AllocError;
use wit_types::type_slots::{slot, slot_count};
use wit_types::{Arena, Handle, Stability, Type, TypeDef, TypeDefKind, TypeId, TypePlace};

/// A stability, where it is known.
fn known(stability: &Stability) -> Option<&Stability>
    ensures { option_copied result ≡ the_known stability.now }
{
    match stability {
        Stability::Unknown => None,
        _ => Some(stability),
    }
}

/// The stability of what a type means, where it is known; of a primitive none is.
fn known_at(types: &Arena<TypeDef, TypePlace>, ty: Type) -> Option<&Stability>
    ensures { option_copied result ≡ the_known (stability_at types.now ty) }
{
    match ty {
        Type::Id(id) => {
            if id.index() < types.len() {
                known(&types.get(id).stability)
            } else {
                None
            }
        }
        _ => None,
    }
}

/// The same of what is in a slot of a kind.
fn known_in_slot(types: &Arena<TypeDef, TypePlace>, in_slot: Option<Type>) -> Option<&Stability>
    ensures { option_copied result ≡ the_known (slot_stability types.now in_slot) }
{
    match in_slot {
        Some(ty) => known_at(types, ty),
        None => None,
    }
}

/// The first known stability in the slots of a kind.
fn first_in_slots<'e>(
    types: &'e Arena<TypeDef, TypePlace>,
    kind: &TypeDefKind,
) -> Option<&'e Stability>
    ensures { option_copied result ≡ the_known (first_known (map (slot_stability types.now) (slots kind.now))) }
{
    for place in 0..slot_count(kind) {
        if let Some(found) = known_in_slot(types, slot(kind, place)) {
            return Some(found);
        }
    }
    None
}

/// The place of a handle's resource.
fn resource_of(handle: &Handle) -> TypeId
    ensures { result ≡ handled handle.now }
{
    match handle {
        Handle::Own(id) | Handle::Borrow(id) => *id,
    }
}

/// The first known stability of the parts of a kind; a handle's part is its resource.
fn first_in_parts<'e>(
    types: &'e Arena<TypeDef, TypePlace>,
    kind: &TypeDefKind,
) -> Option<&'e Stability>
    ensures { option_copied result ≡ the_known (first_known (map (stability_at types.now) (kind_of kind.now).1)) }
{
    match kind {
        TypeDefKind::Handle(handle) => known_at(types, Type::Id(resource_of(handle))),
        _ => first_in_slots(types, kind),
    }
}

/// The stability of an unnamed type of a kind that is added after these types: that of the definition
/// that it is in, where this is known, else the first known one of its parts.
pub(crate) fn settled(
    types: &Arena<TypeDef, TypePlace>,
    given: &Stability,
    kind: &TypeDefKind,
) -> Result<Stability, AllocError>
    ensures { IfOk result (λ s. s ≡ the_settled types.now given.now kind.now) }
{
    if !given.is_unknown() {
        return Ok(given.clone()?);
    }
    match first_in_parts(types, kind) {
        Some(found) => Ok(found.clone()?),
        None => Ok(Stability::Unknown),
    }
}
