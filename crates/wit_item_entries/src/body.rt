//! What is stated of an item and its names, the same of an interface and of a world, and the functions of an
//! interface.
ghost use Rattle.std.specs.Prelude.{◌≡◌, ◌<◌, IfOk, OnOk, false, length, map};
ghost use Rattle.wit_syntax.specs.Source.{scope_names as the_names, declared_metadata, is_world};
ghost use Rattle.wit_syntax.specs.Sides.{SideFunction, functions};
ghost use Rattle.wit_arena.specs.Resolving.{env_of, names_in};
ghost use Rattle.wit_entries.specs.EntryFaults.{IsExtended};
ghost use Rattle.wit_rules.specs.Signatures.{function_view};
ghost use Rattle.wit_externs.specs.Clash.{AreNamesOf, FindsIn};
ghost use Rattle.wit_scopes.specs.BorrowedNames.{name_view, AreNamesPlaced};
ghost use Rattle.wit_items.specs.BorrowedItems.{scope_item, AreOf};
ghost use Rattle.wit_items.specs.ItemPaths.{prefix_of};
ghost use Rattle.wit_items.specs.ResolvedInterfaces.{resolved_scopes_of};
ghost use Rattle.wit_item_entries.specs.Body.{AddsMade, HasTurn};
ghost use Rattle.wit_item_entries.specs.AddedNames.{IsTurn};
ghost use Rattle.wit_item_entries.specs.ReachedFaults.{functions_fault, FindsNames, item_stability};

use crate::functions::{interface_functions, written_results};
use crate::names::{ResolvedNames, resolve_names};
use crate::own_keys::have_upper_case;
use std::alloc::Global;
use wit_entries::entries::Entries;
use wit_entries::scope::Required;
use wit_externs::in_use::define_names;
use wit_externs::scope_functions::resolve_functions;
use wit_items::interfaces::Interfaces;
use wit_items::items::ItemScope;
use wit_items::metadata::{ItemMetadata, item_metadata};
use wit_maps::TextTable;
use wit_model::Function;
use wit_rules::borrowed::BorrowedFunction;
use wit_rules::function_scope::FunctionScope;
use wit_sides::Sides;
use wit_tree::ParseResult;
use wit_tree::tree::Id;
use wit_types::{TypeId, TypeOwner};

/// What is stated of an item, and its names.
#[derive(Drop)]
pub struct Head<'a> {
    pub metadata: ItemMetadata,
    pub names: ResolvedNames<'a>,
}

/// The functions of an interface.
#[derive(Drop)]
pub struct ItemFunctions<'t, 'a> {
    /// As they are written.
    pub written: Vec<BorrowedFunction<'t, 'a>>,
    /// Over their types.
    pub functions: Vec<Function>,
    /// Where it has some, the names of its types, and then those of the functions.
    pub in_use: Sides,
}

/// What is stated of an item, and its names, with what is in them.
pub fn resolve_head<'f, 'a>(
    alloc: Global,
    item: &ItemScope<'f, 'a, '_>,
    types: &mut Entries,
    interfaces: &Interfaces<'f, 'a, '_, '_>,
    owner: TypeOwner,
) -> ParseResult<Head<'a>>
    requires named { map name_view item.now.names.now ≡ the_names (scope_item item.now) }
    requires placed { AreNamesPlaced (prefix_of interfaces.now.files) item.now.names.now }
    ensures as_stated { IfOk result (λ h. AreOf (declared_metadata (scope_item item.now).declared) h.metadata) }
    ensures adds { IfOk result (λ h. HasTurn h.names types.new (scope_item item.now) types.old (resolved_scopes_of interfaces.now) owner) }
    ensures extended { OnOk result (IsExtended types.old types.new) }
    ensures first { FindsNames (item_stability (scope_item item.now)) interfaces.now owner types.old item.now.names.now result }
{
    let metadata = item_metadata(alloc, &item.declared)?;
    let names = resolve_names(alloc, item.names, types, interfaces, owner)?;
    Ok(Head { metadata, names })
}

/// The functions of an interface over their types, after its names, which are resolved. Where it has some, its
/// names and then those of the functions are defined.
pub fn resolve_item_functions<'t, 'a>(
    item: &ItemScope<'t, 'a, '_>,
    types: &mut Entries,
    names: &TextTable<TypeId>,
    turn: &[Id<'a>],
    required: &mut Vec<Required>,
) -> ParseResult<ItemFunctions<'t, 'a>>
    requires sort { is_world (scope_item item.now) ≡ false }
    requires named { map name_view item.now.names.now ≡ the_names (scope_item item.now) }
    requires turn { IsTurn (map name_view item.now.names.now) turn.now }
    requires listed { names_in names.now ≡ map (λ id. id.name.now) turn.now }
    ensures written { IfOk result (λ own. map function_view own.written.items ≡ functions (scope_item item.now)) }
    ensures adds { IfOk result (λ own. AddsMade names.now turn.now types.old types.new (scope_item item.now) own.functions.items required.old required.new) }
    ensures in_use { IfOk result (λ own. 0 < length own.written.items → AreNamesOf own.in_use turn.now (map SideFunction (map function_view own.written.items))) }
    ensures extended { IsExtended types.old types.new }
    ensures first { FindsIn (env_of names.now) types.new (functions_fault (map name_view item.now.names.now) turn.now (functions (scope_item item.now))) result }
{
    let alloc = *names.allocator();
    let written = interface_functions(alloc, item)?;
    let mut in_use = Sides::new(alloc);
    if written.len() == 0 {
        if !have_upper_case(turn) {
            return Ok(ItemFunctions {
                written,
                functions: Vec::new(alloc),
                in_use,
            });
        }
    }
    let results = written_results(alloc, item.names)?;
    define_names(&mut in_use, turn)?;
    let scope = FunctionScope {
        names,
        results: &results,
        functions: &written,
    };
    let functions = resolve_functions(alloc, scope, types, required, &mut in_use)?;
    Ok(ItemFunctions {
        written,
        functions,
        in_use,
    })
}
