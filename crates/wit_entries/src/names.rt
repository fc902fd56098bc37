//! Names that are written in types: what they mean, and whether a handle may name them.
ghost use Rattle.std.specs.Prelude.{◌≡◌, ◌⊎◌, ◌++◌, codes, IfOk, Some, map, string_bytes};
ghost use Rattle.std.specs.List.{list_any};
ghost use Rattle.wit_type_tree.specs.RefusalText.{IsAllocationFailure};
ghost use Rattle.wit_syntax.specs.Fault.{fault_of, no_resource};
ghost use Rattle.wit_first.specs.First.{Finds, Reports};
ghost use Rattle.wit_arena.specs.Resolving.{env_of};
ghost use Rattle.wit_walk.specs.Functions.{is_free, lost_word};
ghost use Rattle.wit_rules.specs.Signatures.{function_view};
ghost use Rattle.wit_entries.specs.EntryFaults.{lost_in, name_fault, FindsResource};

use crate::ends::End;
use crate::entries::Entries;
use crate::scope::Required;
use std::alloc::{AllocError, Global};
use wit_maps::TextTable;
use wit_refusals::refusal::{refuse_in, refuse_missing, refuse_missing_type};
use wit_rules::borrowed::BorrowedFunction;
use wit_tree::tree::Id;
use wit_tree::{ParseError, ParseResult};
use wit_types::TypeId;

/// What names in written types mean.
#[derive(Clone, Copy)]
pub struct TypeScope<'s, 't, 'a> {
    /// The names of the scope.
    pub names: &'s TextTable<TypeId>,
    /// In the signature of a function those of its scope up to it, whose names are no types.
    pub functions: Option<&'s [BorrowedFunction<'t, 'a>]>,
}

/// Whether a function is one by itself, of this name.
fn is_named(function: &BorrowedFunction<'_, '_>, name: &str) -> bool
    ensures { result ≡ is_free name.now (function_view function.now).role }
{
    match *function {
        BorrowedFunction::Free(function) => function.name.name == name,
        BorrowedFunction::Of(_, _) | BorrowedFunction::Across(_, _, _, _, _) => false,
    }
}

/// Whether one of these functions is one by itself of this name.
fn have_name(functions: &[BorrowedFunction<'_, '_>], name: &str) -> bool
    ensures { result ≡ list_any (λ h. is_free name.now (function_view h).role) functions.now }
{
    functions.iter().any(|function| is_named(function, name))
}

/// The words for a function that is used as a type.
fn function_as_type(alloc: Global, name: &str) -> Result<String, AllocError>
    ensures { IfOk result (λ words. string_bytes words ≡ codes "cannot use function `" ++ (name.now ++ codes "` as a type")) }
{
    format!(in alloc; "cannot use function `{name}` as a type")
}

/// A name in the signature of the last of these functions that is no type: that of one of them (E28), or of
/// nothing (E29).
#[cold]
#[inline(never)]
fn refuse_word(alloc: Global, functions: &[BorrowedFunction<'_, '_>], id: Id<'_>) -> ParseError
    ensures { Reports (Some (lost_word (map function_view functions.now) id.entry)) result }
{
    if have_name(functions, id.name) {
        return refuse_in(28, id.span, function_as_type(alloc, id.name));
    }
    refuse_missing(alloc, 29, "name", id)
}

/// A name that is no type.
#[cold]
#[inline(never)]
fn refuse_lost(alloc: Global, scope: &TypeScope<'_, '_, '_>, id: Id<'_>) -> ParseError
    ensures { Reports (Some (lost_in scope.now.functions id.entry)) result }
{
    match scope.functions {
        Some(functions) => refuse_word(alloc, functions, id),
        None => refuse_missing_type(alloc, id),
    }
}

/// What a name of the scope means.
pub fn find_name(alloc: Global, scope: &TypeScope<'_, '_, '_>, id: Id<'_>) -> ParseResult<TypeId>
    ensures found { IfOk result (λ place. env_of scope.now.names.now id.entry.name.now ≡ Some place) }
    ensures first { Finds (name_fault (lost_in scope.now.functions) (env_of scope.now.names.now) id.entry) result }
{
    match scope.names.get(id.name) {
        Some(found) => Ok(*found),
        None => Err(refuse_lost(alloc, scope, id)),
    }
}

/// The words for a name in a handle that ends at no resource.
fn handle_words(alloc: Global, name: &str) -> Result<String, AllocError>
    ensures { IfOk result (λ words. string_bytes words ≡ codes "type `" ++ (name.now ++ codes "` used in a handle must be a resource")) }
{
    format!(in alloc; "type `{name}` used in a handle must be a resource")
}

/// A name in a handle that ends at no resource.
#[cold]
#[inline(never)]
fn refuse_handle(alloc: Global, id: Id<'_>) -> ParseError
    ensures { IsAllocationFailure result ⊎ (fault_of result ≡ no_resource id.entry) }
{
    refuse_in(27, id.span, handle_words(alloc, id.name))
}

/// What a name in a handle means: a resource, or a type of another package, which has to be one.
///
/// A refusal is E15, or in a signature E28 or E29; E27; or a failed allocation.
pub fn find_resource(
    alloc: Global,
    types: &Entries,
    scope: &TypeScope<'_, '_, '_>,
    required: &mut Vec<Required>,
    id: Id<'_>,
) -> ParseResult<TypeId>
    ensures { FindsResource scope.now types.now required.old required.new id.entry result }
{
    let place = find_name(alloc, scope, id)?;
    match types.end(place) {
        End::Resource => Ok(place),
        End::Unknown(unknown) => {
            required.push((unknown, id.span))?;
            Ok(place)
        }
        End::Other => Err(refuse_handle(alloc, id)),
    }
}
