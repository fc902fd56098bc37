//! Names of a scope that are twice.
ghost use Rattle.std.specs.Prelude.{◌≡◌, ◌++◌, map, IfOk, OnOk};
ghost use Rattle.wit_syntax.specs.Source.{local_id as the_local_id};
ghost use Rattle.wit_first.specs.First.{Finds};
ghost use Rattle.wit_first.specs.NameFaults.{local_names_fault};
ghost use Rattle.wit_scopes.specs.BorrowedNames.{use_view, definition_view};

use crate::scope_name::{DefinedName, UsedName, local_of};
use std::alloc::{AllocError, Global};
use wit_refusals::refusal::refuse_in;
use wit_refusals::repeat_words::defined_twice;
use wit_refusals::repeats::first_repeat;
use wit_tree::ParseResult;
use wit_tree::tree::Id;

/// The names that used ones go by. After them is room for so many more.
pub(crate) fn used_ids<'a>(
    alloc: Global,
    uses: &[UsedName<'_, 'a>],
    more: usize,
) -> Result<Vec<Id<'a>>, AllocError>
    ensures { IfOk result (λ ids. ids.items ≡ map the_local_id (map use_view uses.now)) }
{
    let mut ids = Vec::with_capacity(alloc, uses.len().saturating_add(more))?;
    for used in uses {
        ids.push(local_of(used.name))?;
    }
    Ok(ids)
}

/// Adds the names of definitions.
pub(crate) fn add_definition_ids<'a>(
    ids: &mut Vec<Id<'a>>,
    definitions: &[DefinedName<'_, 'a>],
) -> Result<(), AllocError>
    ensures { OnOk result (ids.new.items ≡ ids.old.items ++ map the_local_id (map definition_view definitions.now)) }
{
    for defined in definitions {
        ids.push(defined.definition.name)?;
    }
    Ok(())
}

/// The texts of names.
fn texts<'a>(alloc: Global, ids: &[Id<'a>]) -> Result<Vec<&'a str>, AllocError>
    ensures { IfOk result (λ texts. texts.items ≡ map (λ id. id.name) ids.now) }
{
    ids.iter().map(|id| id.name).collect(alloc)
}

/// Refuses a name that an earlier one has.
pub fn check_unique_names(alloc: Global, ids: &[Id<'_>]) -> ParseResult<()>
    ensures { Finds (local_names_fault ids.now) result }
{
    if ids.len() < 2 {
        return Ok(());
    }
    let texts = texts(alloc, ids)?;
    match first_repeat(alloc, &texts)? {
        Some((_, second)) => {
            let later = &ids[second];
            Err(refuse_in(14, later.span, defined_twice(alloc, "name", later.name)))
        }
        None => Ok(()),
    }
}
