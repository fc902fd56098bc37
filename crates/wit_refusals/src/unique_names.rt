//! Names of parts of a definition, which differ once case is folded.
ghost use Rattle.std.specs.Prelude.{◌≡◌, IfOk, map};
ghost use Rattle.wit_first.specs.First.{Finds};
ghost use Rattle.wit_first.specs.ListFaults.{names_fault};

use crate::refusal::refuse_in;
use crate::repeat_words::clash;
use crate::repeats::first_folded_repeat;
use std::alloc::{AllocError, Global};
use wit_type_tree::ParseResult;
use wit_type_tree::leaves::Id;

/// The names as they are spelled.
fn spelled<'a>(alloc: Global, names: &[Id<'a>]) -> Result<Vec<&'a str>, AllocError>
    ensures { IfOk result (λ texts. map (λ t. t.now) texts.items ≡ map (λ id. id.name.now) names.now) }
{
    let mut texts = Vec::with_capacity(alloc, names.len())?;
    for id in names {
        texts.push(id.name)?;
    }
    Ok(texts)
}

/// Refuses the first name that is an earlier one once case is folded. `desc` says what the names
/// are of: `field`, `flag` or `case`.
///
/// The error is E25 at the later name, or a failed allocation.
pub fn check_unique_names(alloc: Global, desc: &str, names: &[Id<'_>]) -> ParseResult<()>
    ensures { Finds (names_fault desc.now names.now) result }
{
    let texts = spelled(alloc, names)?;
    match first_folded_repeat(alloc, &texts)? {
        Some((first, second)) => {
            let earlier = &names[first];
            let later = &names[second];
            let words = clash(alloc, desc, earlier.name, later.name);
            Err(refuse_in(25, later.span, words))
        }
        None => Ok(()),
    }
}
