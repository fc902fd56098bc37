//! Names that a scope uses from interfaces.
ghost use Rattle.std.specs.Prelude.{◌≡◌, ◌↔◌, ◌++◌, [], Contains, Some, codes, map, OnOk, IfOk, IsTrue, string_bytes, slice_get};
ghost use Rattle.std.specs.List.{flat_map};
ghost use Rattle.std.specs.Option.{option_copied, option_or, option_to_list};
ghost use Rattle.wit_syntax.specs.ScopeTables.{local_names};
ghost use Rattle.wit_first.specs.First.{Finds, Reports, first_after};
ghost use Rattle.wit_arena.specs.SourceFunctions.{freestanding_names};
ghost use Rattle.wit_entries.specs.EntryFaults.{IsExtended, AddsIn};
ghost use Rattle.wit_scopes.specs.BorrowedNames.{use_view, IsPlaced};
ghost use Rattle.wit_items.specs.ItemPaths.{prefix_of};
ghost use Rattle.wit_arena.specs.Resolving.{free_functions, names_in};
ghost use Rattle.wit_items.specs.ResolvedInterfaces.{resolved_scopes_of};
ghost use Rattle.wit_item_entries.specs.ReachedFaults.{local_fault, lost_name, spelled_fault, used_fault};
ghost use Rattle.wit_item_entries.specs.AddedNames.{AddsUsed};

use std::alloc::{AllocError, Global};
use wit_entries::entries::Entries;
use wit_entries::scope::Scope;
use wit_items::interfaces::Interfaces;
use wit_items::resolved_path::source_id;
use wit_maps::TextTable;
use wit_model::{Function, FunctionKind, Interface};
use wit_names::prefix::rest_after;
use wit_notes::stated_metadata;
use wit_refusals::refusal::{refuse_in, refuse_missing};
use wit_refusals::repeat_words::defined_twice;
use wit_scopes::scope_name::{UsedName, local_of};
use wit_tree::tree::Id;
use wit_tree::{ParseError, ParseResult};
use wit_types::{Type, TypeDefKind};

/// The written name of a function that is one by itself.
fn free_name(function: &Function) -> Option<&str>
    ensures { option_to_list (option_copied result) ≡ freestanding_names function.now.kind function.now.name }
{
    let called = function.name.as_str();
    match function.kind {
        FunctionKind::Freestanding | FunctionKind::AsyncFreestanding => Some(called),
        FunctionKind::Getter => rest_after(called, "[get]"),
        FunctionKind::Setter => rest_after(called, "[set]"),
        _ => None,
    }
}

/// Whether a function is one by itself, of this written name.
fn is_called(function: &Function, name: &str) -> bool
    ensures { IsTrue result ↔ Contains (freestanding_names function.now.kind function.now.name) name.now }
{
    match free_name(function) {
        Some(written) => written == name,
        None => false,
    }
}

/// Whether a function of an interface, one by itself, has a name.
fn has_function(functions: &TextTable<Function>, name: &str) -> bool
    ensures { IsTrue result ↔ Contains (flat_map (λ f. freestanding_names f.1.kind f.1.name) functions.now) name.now }
{
    for place in 0..functions.len() {
        if let Some((_, function)) = functions.get_index(place) {
            if is_called(function, name) {
                return true;
            }
        }
    }
    false
}

/// The words for a function that is used as a name.
fn function_used(alloc: Global, name: &str) -> Result<String, AllocError>
    ensures { IfOk result (λ w. string_bytes w ≡ codes "cannot import function `" ++ (name.now ++ codes "`")) }
{
    format!(in alloc; "cannot import function `{name}`")
}

/// The refusal of a used name that is none of the interface's: that of a function (13), or of
/// nothing (12).
#[cold]
#[inline(never)]
fn refuse_used(alloc: Global, interface: &Interface, name: Id<'_>) -> ParseError
    ensures { Reports (Some (lost_name (free_functions interface.now) name.entry)) result }
{
    if has_function(&interface.functions, name.name) {
        return refuse_in(13, name.span, function_used(alloc, name.name));
    }
    refuse_missing(alloc, 12, "name", name)
}

/// Adds a name that is used from an interface.
fn resolve_use<'f, 'a>(
    alloc: Global,
    used: &UsedName<'f, 'a>,
    types: &mut Entries,
    interfaces: &Interfaces<'f, 'a, '_, '_>,
    scope: &mut Scope,
) -> ParseResult<()>
    requires placed { IsPlaced (prefix_of interfaces.now.files) used.now.from }
    ensures used { OnOk result (AddsUsed interfaces.now scope.old scope.new types.old types.new used.now) }
    ensures owner { OnOk result (scope.new.owner ≡ scope.old.owner) }
    ensures required { scope.new.required ≡ scope.old.required }
    ensures extended { OnOk result (IsExtended types.old types.new) }
    ensures first { Finds (option_or (used_fault interfaces.now used.now) (spelled_fault scope.old.names used.now)) result }
{
    let name = used.name;
    let id = source_id(alloc, interfaces, &used.from)?;
    let interface = interfaces.arena.get(id);
    let original = match interface.types.get(name.name.name) {
        Some(original) => *original,
        None => return Err(refuse_used(alloc, interface, name.name)),
    };
    let local = local_of(name);
    if scope.names.get(local.name).is_some() {
        return Err(refuse_in(14, local.span, defined_twice(alloc, "name", local.name)));
    }
    let metadata = stated_metadata(alloc, used.attributes)?;
    let kind = TypeDefKind::Type_(Type::Id(original));
    let own = Id {
        name: local.name,
        span: name.name.span,
    };
    scope.declare(alloc, types, own, metadata, kind)?;
    Ok(())
}

/// Adds the names that a scope uses, in source order.
pub fn resolve_uses<'f, 'a>(
    alloc: Global,
    uses: &[UsedName<'f, 'a>],
    types: &mut Entries,
    interfaces: &Interfaces<'f, 'a, '_, '_>,
    scope: &mut Scope,
) -> ParseResult<()>
    requires placed { (k : _) (u : _) → slice_get uses.now k ≡ Some u → IsPlaced (prefix_of interfaces.now.files) u.from }
    requires empty { scope.old.names ≡ [] }
    ensures defines { OnOk result (AddsIn (resolved_scopes_of interfaces.now) scope.old scope.new types.old types.new (map use_view uses.now)) }
    ensures owner { OnOk result (scope.new.owner ≡ scope.old.owner) }
    ensures listed { OnOk result (names_in scope.new.names ≡ local_names (map use_view uses.now)) }
    ensures required { scope.new.required ≡ scope.old.required }
    ensures extended { OnOk result (IsExtended types.old types.new) }
    ensures first { Finds (first_after (local_fault interfaces.now) [] uses.now) result }
{
    for name in uses {
        resolve_use(alloc, name, types, interfaces, scope)?;
    }
    Ok(())
}
