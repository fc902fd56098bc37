//! Whether each type refers to earlier ones alone.
ghost use Rattle.std.specs.Prelude.{◌≡◌, ◌<◌, ◌≤◌, All};
ghost use Rattle.std.specs.Bool.{MatchBool};
ghost use Rattle.wit_types.specs.InnerTypes.{IsBackward, IsBelow, handled_of, places_to, rank, slots};

use crate::type_slots::{place_of_slot, slot, slot_count};
use crate::types::{Handle, Type, TypeDefKind, Types};

fn is_slot_below(in_slot: Option<Type>, place: usize) -> bool
    ensures { MatchBool result (rank in_slot ≤ place) (place < rank in_slot) }
{
    match place_of_slot(in_slot) {
        Some(id) => id.index() < place,
        None => true,
    }
}

fn are_slots_below(kind: &TypeDefKind, place: usize) -> bool
    ensures { MatchBool result (All (λ t. rank t ≤ place) (slots kind.now)) (All (λ t. rank t ≤ place) (slots kind.now) → ⊥) }
{
    for i in 0..slot_count(kind) {
        if !is_slot_below(slot(kind, i), place) {
            return false;
        }
    }
    true
}

fn is_handle_below(kind: &TypeDefKind, place: usize) -> bool
    ensures { MatchBool result (places_to (handled_of kind.now) ≤ place) (place < places_to (handled_of kind.now)) }
{
    match kind {
        TypeDefKind::Handle(Handle::Own(id)) => id.index() < place,
        TypeDefKind::Handle(Handle::Borrow(id)) => id.index() < place,
        _ => true,
    }
}

fn is_below(kind: &TypeDefKind, place: usize) -> bool
    ensures { MatchBool result (IsBelow place kind.now) (IsBelow place kind.now → ⊥) }
{
    if are_slots_below(kind, place) {
        is_handle_below(kind, place)
    } else {
        false
    }
}

/// Whether every id in the kind of a type, a handle's resource too, is below the type's own place.
pub fn is_backward(types: &Types) -> bool
    ensures { MatchBool result (IsBackward types.now) (IsBackward types.now → ⊥) }
{
    let entries = types.as_slice();
    for place in 0..entries.len() {
        if !is_below(&entries[place].kind, place) {
            return false;
        }
    }
    true
}
