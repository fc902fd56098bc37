//! Copies: each is equal to its source.
ghost use Rattle.std.specs.Prelude.{◌≡◌, IfOk};

use crate::docs::Docs;
use crate::stability::Stability;
use crate::types::TypeDefKind;
use std::alloc::AllocError;
use wit_values::{Rare, Text};

/// A copy of a text that may be left out.
pub fn copy_text(text: &Option<Text>) -> Result<Option<Text>, AllocError>
    ensures { IfOk result (λ copy. copy ≡ text.now) }
{
    text.clone()
}

/// A copy of a name elsewhere.
pub fn copy_external_id(id: &Rare<Text>) -> Result<Rare<Text>, AllocError>
    ensures { IfOk result (λ copy. copy ≡ id.now) }
{
    id.clone()
}

/// A copy of docs.
pub fn copy_docs(docs: &Docs) -> Result<Docs, AllocError>
    ensures { IfOk result (λ copy. copy ≡ docs.now) }
{
    docs.clone()
}

/// A copy of a stability.
pub fn copy_stability(stability: &Stability) -> Result<Stability, AllocError>
    ensures { IfOk result (λ copy. copy ≡ stability.now) }
{
    stability.clone()
}

/// A copy of what a type is.
pub fn copy_kind(kind: &TypeDefKind) -> Result<TypeDefKind, AllocError>
    ensures { IfOk result (λ copy. copy ≡ kind.now) }
{
    kind.clone()
}
