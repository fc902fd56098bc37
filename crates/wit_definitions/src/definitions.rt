//! Definitions, as named entries of the arena.
ghost use Rattle.wit_entries.specs.EntryFaults.{DefinesOne};

use crate::bodies::resolve_body;
use std::alloc::Global;
use wit_entries::entries::Entries;
use wit_entries::names::TypeScope;
use wit_entries::scope::Scope;
use wit_notes::metadata_of;
use wit_tree::{ParseResult, tree};

/// Adds a definition after what is in its body.
///
/// A refusal is E15, E27, a broken rule of attributes, types, fields, flags or cases, or a failed allocation.
pub fn define(
    alloc: Global,
    types: &mut Entries,
    scope: &mut Scope,
    definition: &tree::TypeDef<'_>,
) -> ParseResult<()>
    ensures { DefinesOne scope.old scope.new types.old types.new definition.now result }
{
    let metadata = metadata_of(alloc, &definition.docs, &definition.attributes)?;
    let kind = resolve_body(
        alloc,
        types,
        &TypeScope {
            names: &scope.names,
            functions: None,
        },
        &mut scope.required,
        &metadata.stability,
        &definition.body,
    )?;
    scope.declare(alloc, types, definition.name, metadata, kind)?;
    Ok(())
}
