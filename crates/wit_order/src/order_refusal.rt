//! The refusal that says why a table has no order.
ghost use Rattle.std.specs.Prelude.{◌≡◌, IfOk, IfErr};
ghost use Rattle.wit_type_tree.specs.RefusalText.{IsTypeCycle};
ghost use Rattle.wit_type_tree.specs.declared.error.ParseErrorKind.TheVariants.{OutOfMemory};
ghost use Rattle.wit_type_tree.specs.declared.leaves.Id.{Id as TheId};
ghost use Rattle.wit_graph.specs.Table.{IsEdge, rows};
ghost use Rattle.wit_graph.specs.TableFaults.{IsFaultOf};
ghost use Rattle.wit_graph.specs.Refused.{IsNotFound, IsRefused};

use crate::name_table::NameTable;
use std::alloc::Global;
use wit_graph::OrderFault;
use wit_type_tree::leaves::Id;
use wit_type_tree::{ParseError, ParseErrorKind, ParseResult};

fn not_found(alloc: Global, kind: &str, id: &Id<'_>) -> ParseResult<ParseErrorKind>
    ensures ok { IfOk result (IsNotFound id.now.span id.now.name.now kind.now) }
    ensures err { IfErr result (λ e. e.kind ≡ OutOfMemory) }
{
    Ok(ParseErrorKind::ItemNotFound {
        span: id.span,
        name: String::from_str(alloc, id.name)?,
        kind: String::from_str(alloc, kind)?,
        hint: None,
    })
}

fn type_cycle(alloc: Global, kind: &str, id: &Id<'_>) -> ParseResult<ParseErrorKind>
    ensures ok { IfOk result (IsTypeCycle id.now.span id.now.name.now kind.now) }
    ensures err { IfErr result (λ e. e.kind ≡ OutOfMemory) }
{
    Ok(ParseErrorKind::TypeCycle {
        span: id.span,
        name: String::from_str(alloc, id.name)?,
        kind: String::from_str(alloc, kind)?,
    })
}

/// The name at an index of those that the name at a place needs.
fn need<'d, 'a, T: NameTable<'a>>(deps: &'d T, place: usize, index: usize) -> &'d Id<'a>
    requires { (id : TheId) × IsEdge (rows (T.entries deps.now)) place index id }
    ensures { IsEdge (rows (T.entries deps.now)) place index result.now }
{
    let ids = deps.needs(place);
    &ids[index]
}

/// What the fault's needed name is refused with.
fn kind_of<'a, T: NameTable<'a>>(
    alloc: Global,
    kind: &str,
    deps: &T,
    fault: OrderFault,
) -> ParseResult<ParseErrorKind>
    requires { IsFaultOf (rows (T.entries deps.now)) fault }
    ensures ok { IfOk result (IsRefused (rows (T.entries deps.now)) kind.now) }
    ensures err { IfErr result (λ e. e.kind ≡ OutOfMemory) }
{
    match fault {
        OrderFault::Missing { place, index } => not_found(alloc, kind, need(deps, place, index)),
        OrderFault::Cyclic { place, index } => type_cycle(alloc, kind, need(deps, place, index)),
        OrderFault::OutOfMemory => Ok(ParseErrorKind::OutOfMemory),
    }
}

/// The refusal of the fault's needed name, without a number.
pub fn refusal<'a, T: NameTable<'a>>(
    alloc: Global,
    kind: &str,
    deps: &T,
    fault: OrderFault,
) -> ParseError
    requires { IsFaultOf (rows (T.entries deps.now)) fault }
    ensures kind { IsRefused (rows (T.entries deps.now)) kind.now result.kind }
    ensures rule { result.rule ≡ 0 }
{
    match kind_of(alloc, kind, deps, fault) {
        Ok(says) => ParseError::of(says, 0),
        Err(e) => e.with_rule(0),
    }
}
