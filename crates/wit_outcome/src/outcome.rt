//! From sources to the group that they make, or to their refusal.
ghost use Rattle.std.specs.Prelude.{ℕ, List, IfOk};
ghost use Rattle.wit_bundle.specs.Bundle.{sources_of};
ghost use Rattle.wit_outcome.specs.Outcome.{AreMapped, IsOutcome, IsOutcomeOf};

use crate::plain::{Plain, plain_of};
use std::alloc::{AllocError, Global};
use wit_bundle::bundle;
use wit_groups::UnresolvedPackageGroup;
use wit_lex::SourceMap;
use wit_type_tree::ParseResult;

/// What sources come to.
#[derive(Drop)]
pub enum Outcome {
    /// They are legal, and make this group.
    Group(UnresolvedPackageGroup),
    /// They are refused.
    Refusal(Plain),
}

/// What the sources of a map come to.
fn resolve_map(alloc: Global, map: SourceMap) -> Result<Outcome, AllocError>
    ensures { IfOk result (IsOutcomeOf map.sources.items) }
{
    match UnresolvedPackageGroup::from_sources(alloc, map) {
        Ok(group) => Ok(Outcome::Group(group)),
        Err((map, fault)) => Ok(Outcome::Refusal(plain_of(alloc, map.sources(), &fault)?)),
    }
}

/// What sources come to, given the map of them, or the refusal to make one.
///
/// # Errors
///
/// `AllocError` if an allocation failed outside the resolver. If one failed in it, that is a refusal,
/// with the number 45.
pub fn resolve(alloc: Global, map: ParseResult<SourceMap>) -> Result<Outcome, AllocError>
    ensures { (parts : List (List ℕ × List ℕ)) → AreMapped parts map → IfOk result (IsOutcome parts) }
{
    match map {
        Ok(map) => resolve_map(alloc, map),
        Err(fault) => {
            if fault.rule() != 52 {
                return Err(AllocError);
            }
            Ok(Outcome::Refusal(plain_of(alloc, &[], &fault)?))
        }
    }
}

/// What the sources of a text come to; `bundle` of `wit_bundle` says which these are.
///
/// # Errors
///
/// As `resolve`.
pub fn resolve_text(alloc: Global, text: &str) -> Result<Outcome, AllocError>
    ensures { IfOk result (IsOutcome (sources_of text.now)) }
{
    resolve(alloc, bundle(alloc, text))
}
