//! An interface, whether it is declared or written in a world.
ghost use Rattle.std.specs.Prelude.{◌≡◌, ◌<◌, ◌++◌, false, length, IfErr, IfOk, OnOk, map};
ghost use Rattle.wit_type_tree.specs.RefusalText.{IsAllocationFailure};
ghost use Rattle.wit_syntax.specs.Source.{about, is_world, scope_names};
ghost use Rattle.wit_entries.specs.EntryFaults.{IsExtended};
ghost use Rattle.wit_rules.specs.Signatures.{function_view};
ghost use Rattle.wit_signatures.specs.FunctionsOfScope.{name_of_function, name_of_id};
ghost use Rattle.wit_items.specs.BorrowedItems.{declared_view, metadata_view, scope_item};
ghost use Rattle.wit_first.specs.First.{Finds};
ghost use Rattle.wit_arena.specs.Made.{interface};
ghost use Rattle.wit_arena.specs.Resolving.{env_of};
ghost use Rattle.wit_externs.specs.Clash.{FindsIn, lone_setters};
ghost use Rattle.wit_contents.specs.Interfaces.{rest_fault, FindsInterface, IsLent, names_of, AddsAt, AddsTable};
ghost use Rattle.wit_item_entries.specs.Body.{HasTurn};

use crate::making::Growing;
use std::alloc::{AllocError, Global};
use wit_entries::entries::Entries;
use wit_entries::scope::Required;
use wit_externs::in_use::check_setters;
use wit_item_entries::body::{Head, resolve_head, resolve_item_functions};
use wit_item_entries::functions::function_table;
use wit_item_entries::names::ResolvedNames;
use wit_item_entries::required::add_required;
use wit_items::items::{Declared, ItemScope};
use wit_links::inside::declared_name;
use wit_links::resolved::Resolved;
use wit_maps::TextTable;
use wit_model::{Function, Interface};
use wit_refusals::NameScope;
use wit_rules::borrowed::BorrowedFunction;
use wit_tree::tree::Id;
use wit_tree::{ParseResult, Span};
use wit_types::{InterfaceId, TypeOwner};
use wit_values::Text;

/// Refuses a setter that has no getter of its spelling, where these are the names and the functions,
/// and they are defined if there is a function.
fn check_pairs(
    functions: &[BorrowedFunction<'_, '_>],
    in_use: &NameScope,
    names: &[Id<'_>],
) -> ParseResult<()>
    requires { 0 < length functions.now → in_use.now ≡ map name_of_id names.now ++ map name_of_function (map function_view functions.now) }
    ensures first { Finds (lone_setters (map function_view functions.now)) result }
{
    if functions.len() == 0 {
        return Ok(());
    }
    check_setters(functions, in_use, names)
}

/// The functions of an interface under their names, after its names, which are resolved.
fn functions_of<'a>(
    alloc: Global,
    item: &ItemScope<'_, 'a, '_>,
    types: &mut Entries,
    names: &mut ResolvedNames<'a>,
) -> ParseResult<TextTable<Function>>
    requires sort { is_world (scope_item item.now) ≡ false }
    requires named { names_of item.now ≡ scope_names (scope_item item.now) }
    requires added { (old : _) × (cs : _) × (o : _) × HasTurn names.old types.old (scope_item item.now) old cs o }
    ensures adds { IfOk result (AddsTable names.old names.new types.old types.new (scope_item item.now)) }
    ensures extended { IsExtended types.old types.new }
    ensures first { FindsIn (env_of names.old.types) types.new (rest_fault item.now names.old.turn.items) result }
{
    let own = resolve_item_functions(item, types, &names.types, &names.turn, &mut names.required)?;
    check_pairs(&own.written, &own.in_use.imports, &names.turn)?;
    drop(own.in_use);
    drop(own.written);
    let functions = function_table(alloc, own.functions)?;
    Ok(functions)
}

/// The name by which a declared item is found; an inline interface has none.
fn called_name(alloc: Global, declared: &Declared<'_, '_>) -> Result<Option<Text>, AllocError>
    ensures { IfOk result (λ name. name ≡ (about (declared_view declared.now)).called) }
{
    match declared {
        Declared::Interface(interface) => Ok(Some(Text::from_str(alloc, interface.name.name)?)),
        Declared::World(world) => Ok(Some(Text::from_str(alloc, world.name.name)?)),
        Declared::Inline(_) => Ok(None),
    }
}

/// The interface of this name, with what is stated of it, its names and these functions; it requires what
/// its handles do.
///
/// The error is a failed allocation.
fn interface_with(
    name: Option<Text>,
    head: Head<'_>,
    functions: TextTable<Function>,
    span: Span,
    required: &mut Vec<Required>,
) -> ParseResult<Interface>
    ensures is { IfOk result (λ i. i ≡ interface name head.entry.names.types functions (metadata_view head.entry.metadata) span) }
    ensures required { OnOk result (required.new.items ≡ required.old.items ++ head.entry.names.required.items) }
    ensures refused { IfErr result IsAllocationFailure }
{
    let names = head.names;
    add_required(required, &names.required)?;
    Ok(Interface {
        name,
        types: names.types,
        functions,
        docs: head.metadata.docs,
        stability: head.metadata.stability,
        package: None,
        span,
        clone_of: None,
    })
}

/// The interface at a place, with what is stated of it, its names, and what is in them, and then its
/// functions.
pub fn interface_of<'f, 'a>(
    item: &ItemScope<'f, 'a, '_>,
    growing: &mut Growing,
    resolved: &Resolved<'f, 'a, '_, '_>,
    place: InterfaceId,
) -> ParseResult<Interface>
    requires { IsLent item.now resolved.now.interfaces.files (scope_item item.now) }
    ensures adds { IfOk result (AddsAt resolved.now.interfaces place growing.old growing.new (scope_item item.now)) }
    ensures inside { growing.new.inside ≡ growing.old.inside }
    ensures first { FindsInterface resolved.now.interfaces place growing.old.types item.now result }
{
    let alloc = *resolved.interfaces.by_name.allocator();
    let id = declared_name(&item.declared);
    let name = called_name(alloc, &item.declared)?;
    let owner = TypeOwner::Interface(place);
    let mut head = resolve_head(alloc, item, &mut growing.types, &resolved.interfaces, owner)?;
    let functions = functions_of(alloc, item, &mut growing.types, &mut head.names)?;
    interface_with(name, head, functions, id.span, &mut growing.required)
}
