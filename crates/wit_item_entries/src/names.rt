//! The names of a scope as entries: those that it uses, and then its definitions.
ghost use Rattle.std.specs.Prelude.{◌≡◌, ◌++◌, None, IfOk, OnOk, map};
ghost use Rattle.wit_syntax.specs.ScopeTables.{used, local_names};
ghost use Rattle.wit_syntax.specs.Repeats.{AllDiffer};
ghost use Rattle.wit_entries.specs.EntryFaults.{IsExtended, AddsIn};
ghost use Rattle.wit_scopes.specs.BorrowedNames.{name_view, use_view, definition_view, AreNamesPlaced};
ghost use Rattle.wit_items.specs.ItemPaths.{prefix_of};
ghost use Rattle.wit_scopes.specs.DefinitionOrder.{AreInTurn};
ghost use Rattle.wit_arena.specs.Resolving.{env_of, names_in};
ghost use Rattle.wit_items.specs.ResolvedInterfaces.{resolved_scopes_of};
ghost use Rattle.wit_item_entries.specs.AddedNames.{AddsRest, AddsTurn, DefinitionsRequire};
ghost use Rattle.wit_item_entries.specs.ReachedFaults.{FindsDefinitions, FindsNames, FindsOrdered};

use crate::uses::resolve_uses;
use std::alloc::Global;
use wit_definitions::definitions::define;
use wit_entries::entries::Entries;
use wit_entries::scope::{Required, Scope};
use wit_items::interfaces::Interfaces;
use wit_maps::TextTable;
use wit_scopes::definition_order::{ordered_turn, written_turn};
use wit_scopes::distinct::check_unique_names;
use wit_scopes::scope_name::{DefinedName, ScopeName, UsedName, used_names};
use wit_tree::ParseResult;
use wit_tree::tree::Id;
use wit_types::{TypeId, TypeOwner};

/// The names of a scope that is resolved.
#[derive(Drop)]
pub struct ResolvedNames<'a> {
    /// What each means.
    pub types: TextTable<TypeId>,
    /// The names in the order in which they were resolved.
    pub turn: Vec<Id<'a>>,
    /// What handles in definitions require of types of other packages.
    pub required: Vec<Required>,
    pub ghost listed: { names_in types ≡ map (λ id. id.name.now) turn.items },
}

/// Adds definitions that are in their order.
fn define_all(
    alloc: Global,
    types: &mut Entries,
    scope: &mut Scope,
    definitions: &[DefinedName<'_, '_>],
) -> ParseResult<()>
    requires turn { AreInTurn (env_of scope.old.names) (map definition_view definitions.now) }
    requires differ { AllDiffer (names_in scope.old.names ++ local_names (map definition_view definitions.now)) }
    ensures defines { OnOk result ((cs : _) → AddsIn cs scope.old scope.new types.old types.new (map definition_view definitions.now)) }
    ensures owner { OnOk result (scope.new.owner ≡ scope.old.owner) }
    ensures listed { OnOk result (names_in scope.new.names ≡ names_in scope.old.names ++ local_names (map definition_view definitions.now)) }
    ensures handled { OnOk result (DefinitionsRequire scope.old scope.new types.new (map definition_view definitions.now)) }
    ensures extended { OnOk result (IsExtended types.old types.new) }
    ensures first { FindsDefinitions scope.old types.old (map definition_view definitions.now) result }
{
    for definition in definitions {
        define(alloc, types, scope, definition.definition)?;
    }
    Ok(())
}

/// Adds the definitions of a scope, and what is in them, after the names that it uses; gives all its
/// names in turn.
fn resolve_types<'t, 'a>(
    alloc: Global,
    names: &[ScopeName<'t, 'a>],
    uses: &[UsedName<'t, 'a>],
    types: &mut Entries,
    scope: &mut Scope,
) -> ParseResult<Vec<Id<'a>>>
    requires uses { map use_view uses.now ≡ used (map name_view names.now) }
    requires listed { names_in scope.old.names ≡ local_names (used (map name_view names.now)) }
    ensures defines { IfOk result (λ turn. AddsRest scope.old scope.new types.old types.new (map name_view names.now) turn.items) }
    ensures extended { OnOk result (IsExtended types.old types.new) }
    ensures first { FindsOrdered scope.old types.old (map name_view names.now) result }
{
    let written = written_turn(alloc, names, uses)?;
    check_unique_names(alloc, &written.ids)?;
    let turn = ordered_turn(alloc, names, uses, written)?;
    define_all(alloc, types, scope, &turn.definitions)?;
    Ok(turn.ids)
}

/// Adds the names of a scope of this owner, and what is in them.
///
/// Its functions, and whether two names are one once case is folded, are left to the caller.
pub fn resolve_names<'f, 'a>(
    alloc: Global,
    names: &[ScopeName<'f, 'a>],
    types: &mut Entries,
    interfaces: &Interfaces<'f, 'a, '_, '_>,
    owner: TypeOwner,
) -> ParseResult<ResolvedNames<'a>>
    requires placed { AreNamesPlaced (prefix_of interfaces.now.files) names.now }
    ensures adds { IfOk result (λ r. AddsTurn types.old types.new (resolved_scopes_of interfaces.now) owner (map name_view names.now) r.types r.turn.items r.required.items) }
    ensures extended { OnOk result (IsExtended types.old types.new) }
    ensures first { FindsNames None interfaces.now owner types.old names.now result }
{
    let uses = used_names(alloc, names)?;
    let mut scope = Scope {
        owner,
        names: TextTable::with_capacity(alloc, names.len())?,
        required: Vec::new(alloc),
    };
    resolve_uses(alloc, &uses, types, interfaces, &mut scope)?;
    let turn = resolve_types(alloc, names, &uses, types, &mut scope)?;
    Ok(ResolvedNames {
        types: scope.names,
        turn,
        required: scope.required,
    })
}
