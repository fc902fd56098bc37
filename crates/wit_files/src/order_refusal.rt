//! Refusals of tables that have no order.
ghost use Rattle.std.specs.Prelude.{◌⊎◌, Some};
ghost use Rattle.wit_type_tree.specs.declared.leaves.Id.{Id as TheId};
ghost use Rattle.wit_type_tree.specs.RefusalText.{IsAllocationFailure};
ghost use Rattle.wit_graph.specs.Table.{rows, IsEdge};
ghost use Rattle.wit_graph.specs.TableFaults.{IsFaultOf};
ghost use Rattle.wit_syntax.specs.Fault.{cyclic_at, fault_of, item_word, missing_at, missing_type_at, type_word};
ghost use Rattle.wit_first.specs.OrderFaults.{IsOrderFault};

use std::alloc::Global;
use wit_maps::Table;
use wit_order::OrderFault;
use wit_refusals::refusal::{refuse_cycle, refuse_missing, refuse_missing_type};
use wit_tree::tree::Id;
use wit_tree::{OUT_OF_MEMORY, ParseError, ParseErrorKind};

/// The name at an index of what the item at a place needs.
fn needed<'a>(table: &Table<&'a str, Vec<Id<'a>>>, place: usize, index: usize) -> Id<'a>
    requires { (id : TheId) × IsEdge (rows table.now) place index id }
    ensures { IsEdge (rows table.now) place index result }
{
    let (_, ids) = table.get_index(place).unwrap();
    ids[index]
}

/// The refusal of items that have no order.
pub fn refuse_item_order<'a>(
    alloc: Global,
    table: &Table<&'a str, Vec<Id<'a>>>,
    fault: OrderFault,
) -> ParseError
    requires { IsFaultOf (rows table.now) fault }
    ensures { IsAllocationFailure result ⊎ IsOrderFault (missing_at 7 item_word) (cyclic_at 8 item_word) (rows table.now) (Some (fault_of result)) }
{
    match fault {
        OrderFault::Missing { place, index } => {
            refuse_missing(alloc, 7, "interface or world", needed(table, place, index))
        }
        OrderFault::Cyclic { place, index } => {
            refuse_cycle(alloc, 8, "interface or world", needed(table, place, index))
        }
        OrderFault::OutOfMemory => ParseError::of(ParseErrorKind::OutOfMemory, OUT_OF_MEMORY),
    }
}

/// The refusal of definitions that have no order.
pub fn refuse_type_order<'a>(
    alloc: Global,
    table: &Table<&'a str, Vec<Id<'a>>>,
    fault: OrderFault,
) -> ParseError
    requires { IsFaultOf (rows table.now) fault }
    ensures { IsAllocationFailure result ⊎ IsOrderFault missing_type_at (cyclic_at 16 type_word) (rows table.now) (Some (fault_of result)) }
{
    match fault {
        OrderFault::Missing { place, index } => {
            refuse_missing_type(alloc, needed(table, place, index))
        }
        OrderFault::Cyclic { place, index } => {
            refuse_cycle(alloc, 16, "type", needed(table, place, index))
        }
        OrderFault::OutOfMemory => ParseError::of(ParseErrorKind::OutOfMemory, OUT_OF_MEMORY),
    }
}
