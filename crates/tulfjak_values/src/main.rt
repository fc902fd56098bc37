//! Calls what `tulfjak` has on small values, such as maps, arenas, names and attributes, and prints what each call returns.
#![tactic(auto)]

mod answers;
mod arenas;
mod choices;
mod interning;
mod labels;
mod orders;
mod refusals;
mod rows;
mod scopes;
mod tables;
mod text_tables;

use std::alloc::Global;
use tulfjak::ParseResult;

/// What all calls return.
fn calls(alloc: Global) -> ParseResult<String> {
    let mut text = String::new(alloc);
    arenas::push_arenas(alloc, &mut text)?;
    rows::push_rows(alloc, &mut text)?;
    tables::push_tables(alloc, &mut text)?;
    text_tables::push_text_tables(alloc, &mut text)?;
    interning::push_interning(alloc, &mut text)?;
    choices::push_choices(alloc, &mut text)?;
    labels::push_labels(alloc, &mut text)?;
    scopes::push_scopes(alloc, &mut text)?;
    refusals::push_refusals(alloc, &mut text)?;
    orders::push_orders(alloc, &mut text)?;
    Ok(text)
}

/// Prints what all calls return.
fn main(rt: HostRuntime) -> anyhow::Result<()> {
    Ok(print!(rt; "{}", calls(rt.alloc())?)?)
}
