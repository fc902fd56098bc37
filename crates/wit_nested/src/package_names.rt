//! The names of the packages of a group: no two of them may be equal.
ghost use Rattle.std.specs.Prelude.{◌≡◌, IfErr, IfNone, IfOk, IfSome, OnOk, string_bytes};
ghost use Rattle.std.specs.Map.{keys_of};
ghost use Rattle.wit_syntax.specs.Broken.{Refused};
ghost use Rattle.wit_syntax.specs.Words.{package_words};
ghost use Rattle.wit_nested.specs.PackageNames.{AreNamedApart, IsInserted, IsNamedAgain, IsRepeatedPackage};

use std::alloc::{AllocError, Global};
use wit_maps::Table;
use wit_model::UnresolvedPackage;
use wit_package_names::PackageName;
use wit_refusals::refusal::refuse_in;
use wit_tree::ParseResult;

/// Puts a name after these, where it is none of them; says whether it was new.
fn insert<'p>(
    names: &mut Table<&'p PackageName, ()>,
    name: &'p PackageName,
) -> Result<bool, AllocError>
    ensures { IfOk result (IsInserted (keys_of names.old) (keys_of names.new) name.now) }
{
    Ok(names.insert(name, ())?.is_none())
}

/// The first nested package that has the name of the main one, or of a nested one before it.
fn named_again<'p>(
    alloc: Global,
    main: &'p UnresolvedPackage,
    nested: &'p [UnresolvedPackage],
) -> Result<Option<&'p UnresolvedPackage>, AllocError>
    ensures some { IfOk result (λ found. IfSome found (λ later. IsNamedAgain main.now nested.now later.now)) }
    ensures none { IfOk result (λ found. IfNone found (AreNamedApart main.now nested.now)) }
{
    let mut names = Table::new(alloc);
    insert(&mut names, &main.name)?;
    for package in nested {
        if !insert(&mut names, &package.name)? {
            return Ok(Some(package));
        }
    }
    Ok(None)
}

/// The words for a package whose name another one of the group has.
fn repeated(alloc: Global, name: &PackageName) -> Result<String, AllocError>
    ensures { IfOk result (λ words. string_bytes words ≡ package_words name.now) }
{
    format!(in alloc; "package `{name}` is defined more than once in this group")
}

/// Refuses two packages of one name and version (E53), at the first nested one that repeats the name of
/// the main one or of a nested one before it.
pub(crate) fn check_names(
    alloc: Global,
    main: &UnresolvedPackage,
    nested: &[UnresolvedPackage],
) -> ParseResult<()>
    ensures apart { OnOk result (AreNamedApart main.now nested.now) }
    ensures refused { IfErr result (Refused (IsRepeatedPackage main.now nested.now)) }
{
    match named_again(alloc, main, nested)? {
        Some(later) => {
            let words = repeated(alloc, &later.name);
            Err(refuse_in(53, later.package_name_span(), words))
        }
        None => Ok(()),
    }
}
