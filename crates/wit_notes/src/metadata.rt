//! What the docs and the attributes before a thing say of it.
ghost use Rattle.std.specs.Prelude.{◌≡◌, IfOk};
ghost use Rattle.wit_first.specs.AttributeFaults.{metadata_fault};
ghost use Rattle.wit_first.specs.First.{Finds};
ghost use Rattle.wit_syntax.specs.Metadata.{docs_of, no_docs, metadata as the_metadata};
ghost use Rattle.wit_notes.specs.BorrowedMetadata.{metadata_view};

use crate::attributes::{
    check_external_once, check_stability, stated_external_id, stated_stability,
};
use crate::comments::docs;
use std::alloc::{AllocError, Global};
use wit_tree::ParseResult;
use wit_tree::tree::{self, Attribute};
use wit_types::{Docs, Stability};
use wit_values::{Rare, Text};

/// What is stated of a thing: its docs, how stable it is, and its name elsewhere.
#[derive(Debug, Clone, Drop)]
pub struct Metadata {
    pub docs: Docs,
    pub stability: Stability,
    pub external_id: Rare<Text>,
}

/// What docs and attributes say.
///
/// The error is that of [`check_metadata`], or a failed allocation.
pub fn metadata_of(
    alloc: Global,
    comments: &tree::Docs<'_>,
    attributes: &[Attribute<'_>],
) -> ParseResult<Metadata>
    ensures as_stated { IfOk result (λ n. metadata_view n ≡ the_metadata (docs_of comments.now) attributes.now) }
    ensures first { Finds (metadata_fault attributes.now) result }
{
    let docs = docs(alloc, comments)?;
    if attributes.len() == 0 {
        return Ok(Metadata {
            docs,
            stability: Stability::Unknown,
            external_id: Rare::none(),
        });
    }
    let as_stated = use_metadata(alloc, attributes)?;
    Ok(Metadata {
        docs,
        stability: as_stated.stability,
        external_id: as_stated.external_id,
    })
}

/// Refuses attributes that break a rule: of stability, or that no external id comes after another.
///
/// The error is that of [`stability`](crate::stability), then that of
/// [`external_id`](crate::external_id), or a failed allocation.
pub fn check_metadata(alloc: Global, attributes: &[Attribute<'_>]) -> ParseResult<()>
    ensures { Finds (metadata_fault attributes.now) result }
{
    if attributes.len() == 0 {
        return Ok(());
    }
    check_stability(alloc, attributes)?;
    check_external_once(alloc, attributes)
}

/// What attributes say of a thing that has no docs, as a used name has none: the first of each kind,
/// whatever rule they break.
///
/// The error is a failed allocation.
pub fn stated_metadata(alloc: Global, attributes: &[Attribute<'_>]) -> Result<Metadata, AllocError>
    ensures { IfOk result (λ n. metadata_view n ≡ the_metadata no_docs attributes.now) }
{
    if attributes.len() == 0 {
        return Ok(Metadata {
            docs: Docs { contents: None },
            stability: Stability::Unknown,
            external_id: Rare::none(),
        });
    }
    let stability = stated_stability(alloc, attributes)?;
    let external_id = stated_external_id(alloc, attributes)?;
    Ok(Metadata {
        docs: Docs { contents: None },
        stability,
        external_id,
    })
}

/// What attributes say of a thing that has no docs, as a used name has none.
///
/// The error is that of [`check_metadata`], or a failed allocation.
pub fn use_metadata(alloc: Global, attributes: &[Attribute<'_>]) -> ParseResult<Metadata>
    ensures as_stated { IfOk result (λ n. metadata_view n ≡ the_metadata no_docs attributes.now) }
    ensures first { Finds (metadata_fault attributes.now) result }
{
    check_metadata(alloc, attributes)?;
    Ok(stated_metadata(alloc, attributes)?)
}
