//! The futures and streams of a function's signature.
ghost use Rattle.std.specs.Prelude.{◌≡◌, ◌≤◌, ◌++◌, ℕ, IfOk, OnOk, length};
ghost use Rattle.wit_functions.specs.Futures.{futures, futures_of, has_unknown, is_awaited, is_unknown, reaches_unknown};
ghost use Rattle.wit_types.specs.InnerTypes.{IsBackward, rank};

use crate::function::Function;
use std::alloc::{AllocError, Global};
use wit_types::type_slots::{place_of_slot, slot, slot_count};
use wit_types::{Type, TypeDefKind, TypeId, Types};

// Whether a kind is a future or a stream.
fn is_awaited(kind: &TypeDefKind) -> bool
    ensures { result ≡ is_awaited kind.now }
{
    matches!(kind, TypeDefKind::Future(_) | TypeDefKind::Stream(_))
}

// Whether a kind is that of a type of another package.
fn is_unknown(kind: &TypeDefKind) -> bool
    ensures { result ≡ is_unknown kind.now }
{
    matches!(kind, TypeDefKind::Unknown)
}

// Adds the futures and streams in a slot.
fn add_futures(
    types: &Types,
    in_slot: Option<Type>,
    out: &mut Vec<TypeId>,
) -> Result<(), AllocError>
    requires { IsBackward types.now }
    ensures { OnOk result ((n : ℕ) → (rank in_slot ≤ length types.now → rank in_slot ≤ n) → out.new.items ≡ out.old.items ++ futures types.now n in_slot) }
{
    let Some(id) = place_of_slot(in_slot) else {
        return Ok(());
    };
    if id.index() >= types.len() {
        return Ok(());
    }
    let kind = &types.get(id).kind;
    for place in 0..slot_count(kind) {
        add_futures(types, slot(kind, place), out)?;
    }
    if is_awaited(kind) {
        out.push(id)?;
    }
    Ok(())
}

// Whether a type of another package is in a slot.
fn is_unknown_in(types: &Types, in_slot: Option<Type>) -> bool
    requires { IsBackward types.now }
    ensures { (n : ℕ) → (rank in_slot ≤ length types.now → rank in_slot ≤ n) → result ≡ has_unknown types.now n in_slot }
{
    let Some(id) = place_of_slot(in_slot) else {
        return false;
    };
    if id.index() >= types.len() {
        return false;
    }
    let kind = &types.get(id).kind;
    if is_unknown(kind) {
        return true;
    }
    for place in 0..slot_count(kind) {
        if is_unknown_in(types, slot(kind, place)) {
            return true;
        }
    }
    false
}

/// Whether a type of another package is in a function's signature or below it.
///
/// Handles are not entered. `types` is the arena of the function's types, and each entry refers
/// to earlier ones alone, as `is_backward` says. Below an id of no entry is nothing.
pub fn reaches_unknown(types: &Types, function: &Function) -> bool
    requires { IsBackward types.now }
    ensures { result ≡ reaches_unknown types.now function.now }
{
    for param in function.params.as_slice() {
        if is_unknown_in(types, Some(param.ty)) {
            return true;
        }
    }
    is_unknown_in(types, function.result)
}

impl Function {
    /// The futures and streams in the parameters, and then in the result: each after those below
    /// it, and as often as it is there. Handles are not entered.
    ///
    /// `types` is the arena of the function's types, and each entry refers to earlier ones alone,
    /// as `is_backward` says. What is below a type of another package is not known, and none of
    /// it is listed: `reaches_unknown` says where that is so. The error is a failed allocation.
    pub fn find_futures_and_streams(
        &self,
        alloc: Global,
        types: &Types,
    ) -> Result<Vec<TypeId>, AllocError>
        requires { IsBackward types.now }
        ensures { IfOk result (λ found. found.items ≡ futures_of types.now self.now) }
    {
        let mut found = Vec::new(alloc);
        for param in self.params.as_slice() {
            add_futures(types, Some(param.ty), &mut found)?;
        }
        add_futures(types, self.result, &mut found)?;
        Ok(found)
    }
}
