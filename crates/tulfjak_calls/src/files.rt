//! Files, their names, and the targets of paths.
ghost use Rattle.std.specs.Prelude.{◌≡◌, ◌<◌, length};

use crate::answers::push_answer;
use crate::trees::{push_file, read};
use std::alloc::{AllocError, Global};
use tulfjak::ParseResult;
use tulfjak::resolve::{FileNames, Visit, visits};
use tulfjak::syntax::tree::{DeclList, PackageFile};

/// Adds the target of a path in the file at a place.
fn push_visit<'f, 'a>(
    names: &FileNames<'f, 'a>,
    file: usize,
    visit: &Visit<'f, 'a>,
    text: &mut String,
) -> Result<(), AllocError>
    requires { file < length names.now }
{
    let target = names.target(file, visit.path);
    let found = (names.found(target), names.lookup(file, visit.path));
    push_answer(text, "FileNames::found", &(&visit.wanted, found))
}

/// Adds the targets of the paths in the file at a place.
fn push_visits<'f, 'a>(
    alloc: Global,
    names: &FileNames<'f, 'a>,
    file: usize,
    list: &'f DeclList<'a>,
    text: &mut String,
) -> Result<(), AllocError>
    requires { file < length names.now }
{
    for visit in &visits(alloc, list)? {
        push_visit(names, file, visit, text)?;
    }
    Ok(())
}

/// Whether the declared item at a place is a world.
fn is_world(names: &FileNames<'_, '_>, place: usize) -> bool {
    if place < names.item_order().len() {
        return names.is_world(place);
    }
    false
}

/// Adds the order of declared items, and how many items of other packages there are.
fn push_order(names: &FileNames<'_, '_>, text: &mut String) -> Result<(), AllocError> {
    push_answer(text, "FileNames::item_order", &names.item_order())?;
    for place in names.item_order() {
        push_answer(text, "FileNames::is_world", &is_world(names, *place))?;
    }
    let counts = (names.foreign().len(), names.foreign_visits().len());
    push_answer(text, "FileNames::foreign", &counts)
}

/// Adds the targets of the paths in files.
fn push_paths<'f, 'a>(
    alloc: Global,
    names: &FileNames<'f, 'a>,
    files: &'f [PackageFile<'a>],
    text: &mut String,
) -> Result<(), AllocError>
    requires { names.now ≡ files.now }
{
    for file in 0..files.len() {
        push_visits(alloc, names, file, &files[file].decl_list, text)?;
    }
    push_order(names, text)
}

/// Adds what calls on the names of files return.
fn push_names(alloc: Global, files: &[PackageFile<'_>], text: &mut String) -> ParseResult<()> {
    let names = FileNames::gather(alloc, files)?;
    push_paths(alloc, &names, files, text)?;
    Ok(())
}

/// Adds what calls on files and on their names return.
fn push_all(alloc: Global, files: &[PackageFile<'_>], text: &mut String) -> ParseResult<()> {
    for file in 0..files.len() {
        push_file(alloc, &files[file], text)?;
    }
    push_names(alloc, files, text)
}

/// Adds what calls on a source return, as a file by itself.
pub fn push_files(alloc: Global, source: &str, text: &mut String) -> ParseResult<()> {
    let tree = read(alloc, source)?;
    push_all(alloc, &[tree.file], text)
}
