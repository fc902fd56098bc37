//! The order in which the definitions of a scope are resolved.
ghost use Rattle.std.specs.Prelude.{◌≡◌, map, IfOk};
ghost use Rattle.std.specs.Bool.{MatchBool};
ghost use Rattle.wit_graph.specs.Table.{rows, IsOrder};
ghost use Rattle.wit_syntax.specs.ScopeTables.{defined, needed_ids as the_needed, rows_of, AreDistinct};
ghost use Rattle.wit_first.specs.First.{FindsBy};
ghost use Rattle.wit_first.specs.OrderFaults.{IsTypeOrderFault};
ghost use Rattle.wit_scopes.specs.BorrowedNames.{AreIdsOf, name_view, definition_view};
ghost use Rattle.wit_scopes.specs.DefinitionOrder.{AreOrdered, NeedNone};

use crate::by_place::in_order;
use crate::distinct::{add_definition_ids, used_ids};
use crate::scope_name::{DefinedName, ScopeName, UsedName, definitions, local_id};
use crate::written_names::body_deps;
use std::alloc::{AllocError, Global};
use wit_files::order_refusal::refuse_type_order;
use wit_maps::Table;
use wit_order::order_places;
use wit_tree::ParseResult;
use wit_tree::tree::Id;

/// The names that a name of a scope needs: those in its body, where it is a definition.
fn needed_ids<'a>(alloc: Global, name: &ScopeName<'_, 'a>) -> Result<Vec<Id<'a>>, AllocError>
    ensures { IfOk result (λ ids. ids.items ≡ the_needed (name_view name.now)) }
{
    match name {
        ScopeName::Used(_) => Ok(Vec::new(alloc)),
        ScopeName::Defined(defined) => body_deps(alloc, &defined.definition.body),
    }
}

/// Each name of a scope with those that it needs, in source order.
fn scope_table<'a>(
    alloc: Global,
    names: &[ScopeName<'_, 'a>],
) -> Result<Table<&'a str, Vec<Id<'a>>>, AllocError>
    requires distinct { AreDistinct (map name_view names.now) }
    ensures rows { IfOk result (λ table. rows table ≡ rows_of (map name_view names.now)) }
{
    let mut table = Table::with_capacity(alloc, names.len())?;
    for name in names {
        let needed = needed_ids(alloc, name)?;
        table.put(local_id(name).name, needed)?;
    }
    Ok(table)
}

/// The places of the names of a scope, in the order in which the definitions are resolved.
fn scope_order(alloc: Global, names: &[ScopeName<'_, '_>]) -> ParseResult<Vec<usize>>
    requires distinct { AreDistinct (map name_view names.now) }
    ensures order { IfOk result (λ places. IsOrder (rows_of (map name_view names.now)) places.items) }
    ensures first { FindsBy (IsTypeOrderFault (map name_view names.now)) result }
{
    let table = scope_table(alloc, names)?;
    match order_places(alloc, &table) {
        Ok(places) => Ok(places),
        Err(fault) => Err(refuse_type_order(alloc, &table, fault)),
    }
}

/// Definitions of a scope in an order, and its names: those that it uses, and then those of the
/// definitions.
#[derive(Drop)]
pub struct Turn<'t, 'a> {
    pub definitions: Vec<DefinedName<'t, 'a>>,
    pub ids: Vec<Id<'a>>,
}

/// Definitions in an order, with the names of their scope, which uses these.
fn turn_of<'t, 'a>(
    alloc: Global,
    uses: &[UsedName<'t, 'a>],
    definitions: Vec<DefinedName<'t, 'a>>,
) -> Result<Turn<'t, 'a>, AllocError>
    ensures definitions { IfOk result (λ t. t.definitions ≡ definitions.entry) }
    ensures ids { IfOk result (AreIdsOf uses.now) }
{
    let mut ids = used_ids(alloc, uses, definitions.len())?;
    add_definition_ids(&mut ids, &definitions)?;
    Ok(Turn { definitions, ids })
}

/// The definitions of a scope, which uses these names, as they are written.
pub fn written_turn<'t, 'a>(
    alloc: Global,
    names: &[ScopeName<'t, 'a>],
    uses: &[UsedName<'t, 'a>],
) -> Result<Turn<'t, 'a>, AllocError>
    ensures definitions { IfOk result (λ t. map definition_view t.definitions.items ≡ defined (map name_view names.now)) }
    ensures ids { IfOk result (AreIdsOf uses.now) }
{
    let written = definitions(alloc, names, uses.len())?;
    turn_of(alloc, uses, written)
}

/// Whether each name of a scope needs none.
fn need_none(alloc: Global, names: &[ScopeName<'_, '_>]) -> Result<bool, AllocError>
    ensures { IfOk result (λ none. MatchBool none (NeedNone (map name_view names.now)) (NeedNone (map name_view names.now) → ⊥)) }
{
    for name in names {
        let needed = needed_ids(alloc, name)?;
        if needed.as_slice().len() != 0 {
            return Ok(false);
        }
    }
    Ok(true)
}

/// The definitions of a scope, which uses these names, in the order in which they are resolved: that in
/// which they are written where none needs a name.
pub fn ordered_turn<'t, 'a>(
    alloc: Global,
    names: &[ScopeName<'t, 'a>],
    uses: &[UsedName<'t, 'a>],
    written: Turn<'t, 'a>,
) -> ParseResult<Turn<'t, 'a>>
    requires distinct { AreDistinct (map name_view names.now) }
    requires definitions { map definition_view written.definitions.items ≡ defined (map name_view names.now) }
    requires ids { AreIdsOf uses.now written }
    ensures ordered { IfOk result (λ t. AreOrdered (map name_view names.now) (map definition_view t.definitions.items)) }
    ensures ids { IfOk result (AreIdsOf uses.now) }
    ensures first { FindsBy (IsTypeOrderFault (map name_view names.now)) result }
{
    if need_none(alloc, names)? {
        return Ok(written);
    }
    let places = scope_order(alloc, names)?;
    let ordered = in_order(alloc, names, &places)?;
    let sorted = definitions(alloc, &ordered, 0)?;
    Ok(turn_of(alloc, uses, sorted)?)
}
