//! The slots of a kind where a type can be.
ghost use Rattle.std.specs.Prelude.{◌≡◌, ◌<◌, Some, length, slice_get};
ghost use Rattle.wit_types.specs.InnerTypes.{place_of, place_of_slot, slots};

use crate::ids::TypeId;
use crate::types::{Type, TypeDefKind};

/// How many slots a kind has.
pub fn slot_count(kind: &TypeDefKind) -> usize
    ensures { result ≡ length (slots kind.now) }
{
    match kind {
        TypeDefKind::Record(record) => record.fields.len(),
        TypeDefKind::Tuple(tuple) => tuple.types.len(),
        TypeDefKind::Variant(variant) => variant.cases.len(),
        TypeDefKind::Result(_) | TypeDefKind::Map(_, _) => 2,
        TypeDefKind::Option(_)
        | TypeDefKind::List(_)
        | TypeDefKind::FixedLengthList(_, _)
        | TypeDefKind::Future(_)
        | TypeDefKind::Stream(_)
        | TypeDefKind::Type_(_) => 1,
        TypeDefKind::Resource
        | TypeDefKind::Handle(_)
        | TypeDefKind::Flags(_)
        | TypeDefKind::Enum(_)
        | TypeDefKind::Unknown => 0,
    }
}

/// The type in a slot of a kind, counted from 0, if there is one.
pub fn slot(kind: &TypeDefKind, place: usize) -> Option<Type>
    requires { place < length (slots kind.now) }
    ensures { slice_get (slots kind.now) place ≡ Some result }
{
    match kind {
        TypeDefKind::Record(record) => Some(record.fields.as_slice()[place].ty),
        TypeDefKind::Tuple(tuple) => Some(tuple.types.as_slice()[place]),
        TypeDefKind::Variant(variant) => variant.cases.as_slice()[place].ty,
        TypeDefKind::Result(outcome) => { if place == 0 { outcome.ok } else { outcome.err } }
        TypeDefKind::Map(key, value) => { if place == 0 { Some(*key) } else { Some(*value) } }
        TypeDefKind::Option(ty)
        | TypeDefKind::List(ty)
        | TypeDefKind::FixedLengthList(ty, _)
        | TypeDefKind::Type_(ty) => Some(*ty),
        TypeDefKind::Future(ty) | TypeDefKind::Stream(ty) => *ty,
        TypeDefKind::Resource
        | TypeDefKind::Handle(_)
        | TypeDefKind::Flags(_)
        | TypeDefKind::Enum(_)
        | TypeDefKind::Unknown => unreachable!(),
    }
}

fn place_of(ty: Type) -> Option<TypeId>
    ensures { result ≡ place_of ty }
{
    match ty {
        Type::Id(id) => Some(id),
        _ => None,
    }
}

/// The place in the arena of the type in a slot, if it is no primitive.
pub fn place_of_slot(in_slot: Option<Type>) -> Option<TypeId>
    ensures { result ≡ place_of_slot in_slot }
{
    match in_slot {
        Some(ty) => place_of(ty),
        None => None,
    }
}
