//! Orders of tables of names.

use crate::answers::push_answer;
use indexmap::IndexMap;
use std::alloc::{AllocError, Global};
use tulfjak::order::{laws, order_steps, toposort, toposort_heap, toposort_scan};
use tulfjak::package::Table;
use tulfjak::syntax::tree::Id;
use tulfjak::{ParseResult, Span};

/// The table in which `b` needs `a`.
fn table(alloc: Global) -> Result<IndexMap<&'static str, Vec<Id<'static>>>, AllocError> {
    let mut table = IndexMap::new(alloc);
    let mut needs = Vec::new(alloc);
    if let Some(id) = Id::new("a", Span::default()) {
        needs.push(id)?;
    }
    table.insert("b", needs)?;
    table.insert("a", Vec::new(alloc))?;
    Ok(table)
}

/// Adds the order of a table, by two bodies.
fn push_order(
    alloc: Global,
    table: &IndexMap<&str, Vec<Id<'_>>>,
    text: &mut String,
) -> ParseResult<()> {
    push_answer(text, "toposort", &toposort(alloc, "step", table)?)?;
    push_answer(text, "toposort_heap", &toposort_heap(alloc, "step", table)?)?;
    Ok(())
}

/// Adds the order of a table, by two more bodies, and the counts of one.
fn push_steps(
    alloc: Global,
    table: &IndexMap<&str, Vec<Id<'_>>>,
    text: &mut String,
) -> ParseResult<()> {
    push_answer(text, "toposort_scan", &toposort_scan(alloc, "step", table)?)?;
    let (order, steps) = order_steps(alloc, "step", table)?;
    let answers = (order, steps.entered(), steps.closed());
    push_answer(text, "order_steps", &answers)?;
    Ok(())
}

/// Adds the order of a `Table`.
fn push_table(alloc: Global, text: &mut String) -> ParseResult<()> {
    let table = Table::from_index_map(table(alloc)?)?;
    push_answer(text, "toposort", &toposort(alloc, "step", &table)?)?;
    Ok(())
}

/// Adds what calls on orders return.
pub fn push_orders(alloc: Global, text: &mut String) -> ParseResult<()> {
    push_order(alloc, &table(alloc)?, text)?;
    push_steps(alloc, &table(alloc)?, text)?;
    push_table(alloc, text)?;
    laws::one_answer();
    laws::same_edges();
    Ok(())
}
