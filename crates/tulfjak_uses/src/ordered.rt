//! A table of a caller's own, in order.

use indexmap::IndexMap;
use std::alloc::{AllocError, Global};
use tulfjak::Span;
use tulfjak::order::toposort;
use tulfjak::syntax::tree::Id;

/// The steps of a build, each with those that it needs.
const STEPS: [(&str, &str); 4] = [
    ("link", "compile"),
    ("compile", "generate"),
    ("test", "link"),
    ("generate", ""),
];

/// Adds a step to a table.
fn add(
    alloc: Global,
    table: &mut IndexMap<&'static str, Vec<Id<'static>>>,
    step: &(&'static str, &'static str),
) -> Result<(), AllocError> {
    let mut needs = Vec::new(alloc);
    if let Some(id) = Id::new(step.1, Span::default()) {
        needs.push(id)?;
    }
    table.insert(step.0, needs)?;
    Ok(())
}

/// Writes the steps, each after those that it needs, or why they have no order.
pub fn push_order(alloc: Global, text: &mut String) -> Result<(), AllocError> {
    let mut table = IndexMap::new(alloc);
    for step in &STEPS {
        add(alloc, &mut table, step)?;
    }
    match toposort(alloc, "step", &table) {
        Ok(order) => {
            for step in &order {
                write!(text, "{step}\n")?;
            }
            Ok(())
        }
        Err(refusal) => write!(text, "{refusal}\n"),
    }
}
