//! Names of scopes, and parts of trees that no source makes.

use crate::answers::{push_answer, push_shown};
use std::alloc::{AllocError, Global};
use tulfjak::resolve::{NameScope, check_unique_names, docs, external_id};
use tulfjak::syntax::tree::{Attribute, Docs, Id};
use tulfjak::{ParseResult, Span};

/// A scope with a setter alone.
fn lone_setter(alloc: Global) -> ParseResult<NameScope> {
    let mut scope = NameScope::new(alloc);
    scope.define("[set]x", Span::default())?;
    Ok(scope)
}

/// Adds the refusal of a scope that has a setter alone.
fn push_scope(text: &mut String, scope: &NameScope) -> Result<(), AllocError> {
    push_answer(text, "NameScope::has", &scope.has("[set]X")?)?;
    match scope.check_setters() {
        Ok(()) => Ok(()),
        Err(refusal) => push_shown(text, "NameScope::check_setters", &refusal),
    }
}

/// Adds the refusal of labels that differ in case alone.
fn push_labels(alloc: Global, text: &mut String) -> Result<(), AllocError> {
    let mut ids = Vec::new(alloc);
    for name in ["a", "b", "A"] {
        if let Some(id) = Id::new(name, Span::default()) {
            ids.push(id)?;
        }
    }
    match check_unique_names(alloc, "field", &ids) {
        Ok(()) => Ok(()),
        Err(refusal) => push_shown(text, "check_unique_names", &refusal),
    }
}

/// Adds the external id of an attribute, and docs without comments.
fn push_pieces(alloc: Global, text: &mut String) -> ParseResult<()> {
    let span = Span::default();
    let name = external_id(alloc, &[Attribute::ExternalId { span, id: "else" }])?;
    push_answer(text, "external_id", &name)?;
    push_answer(text, "docs", &docs(alloc, &Docs::none(alloc))?)?;
    Ok(())
}

/// Adds what calls on names and attributes by themselves return.
pub fn push_scopes(alloc: Global, text: &mut String) -> ParseResult<()> {
    push_scope(text, &lone_setter(alloc)?)?;
    push_labels(alloc, text)?;
    push_pieces(alloc, text)
}
