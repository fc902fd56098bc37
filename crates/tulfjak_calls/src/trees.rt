//! Trees: reading, docs, attributes, names of packages, and where names are written.

use crate::answers::{push_answer, push_shown};
use std::alloc::{AllocError, Global};
use tulfjak::package::{Docs, Stability};
use tulfjak::resolve::{docs, external_id, package_name, stability};
use tulfjak::syntax::read_file;
use tulfjak::syntax::tree::{
    AstItem, ExternKind, Interface, PackageFile, SourceFile, World, WorldItem,
};
use tulfjak::{ParseError, ParseResult, Span};

/// More bytes than a source of these has.
const MANY: usize = 1000;

/// The tree of a short source.
pub fn read<'a>(alloc: Global, source: &'a str) -> ParseResult<SourceFile<'a>> {
    if source.len() < MANY {
        return read_file(alloc, source, 0);
    }
    let message = String::from_str(alloc, "the source is long")?;
    Err(ParseError::new_syntax(Span::default(), message))
}

/// Adds where the imports and exports of a world have their names.
fn push_world(world: &World<'_>, text: &mut String) -> Result<(), AllocError> {
    for item in &world.items {
        if let WorldItem::Extern(external) = item {
            push_answer(text, "ExternKind::span", &external.kind.span())?;
            if let ExternKind::Path(path) = &external.kind {
                push_answer(text, "UsePath::span", &path.span())?;
            }
        }
    }
    Ok(())
}

/// Adds docs.
fn push_docs(text: &mut String, docs: &Docs) -> Result<(), AllocError> {
    push_answer(text, "Docs::is_empty", &(docs, docs.is_empty()))
}

/// Adds a stability.
fn push_stability(text: &mut String, stability: &Stability) -> Result<(), AllocError> {
    let answers = (stability, stability.is_unknown(), stability.is_stable());
    push_answer(text, "Stability::is_unknown", &answers)
}

/// Adds the docs of an interface, its stability and its external id.
fn push_interface(alloc: Global, interface: &Interface<'_>, text: &mut String) -> ParseResult<()> {
    push_docs(text, &docs(alloc, &interface.docs)?)?;
    push_stability(text, &stability(alloc, &interface.attributes)?)?;
    let name = external_id(alloc, &interface.attributes)?;
    push_answer(text, "external_id", &name.get())?;
    Ok(())
}

/// Adds the name that a file gives its package, and what calls on its items return.
pub fn push_file(alloc: Global, file: &PackageFile<'_>, text: &mut String) -> ParseResult<()> {
    if let Some(header) = &file.package_id {
        push_shown(text, "package_name", &package_name(alloc, header)?)?;
    }
    for item in &file.decl_list.items {
        match item {
            AstItem::Interface(interface) => push_interface(alloc, interface, text)?,
            AstItem::World(world) => push_world(world, text)?,
            AstItem::Use(_) => {}
        }
    }
    Ok(())
}
