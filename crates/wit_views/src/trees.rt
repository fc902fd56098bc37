//! The view `tree`: the debug text of the tree of each source, whose first byte is at 1000: of its file,
//! and after that of each package that is nested in it. Docs without comments, lists of no attribute and
//! lists of no nested package are left out.

use std::alloc::{AllocError, Global};
use wit_text::{Source, SourceMap, read_file};
use wit_tree::tree::{NestedPackage, SourceFile};

/// The debug text of docs without comments.
const NO_DOCS: &str = "docs: Docs { docs: [], span: Span { start: 0, end: 0 } }, ";

const NO_ATTRIBUTES: &str = "attributes: [], ";

const NO_NESTED: &str = ", nested: []";

/// A text without a part, wherever that is in it.
fn without(alloc: Global, text: &str, part: &str) -> Result<String, AllocError> {
    let mut rest = String::new(alloc);
    for piece in text.split(part) {
        rest.push_str(piece)?;
    }
    Ok(rest)
}

/// Puts the debug texts of packages after a text.
fn push_nested(text: &mut String, packages: &[NestedPackage<'_>]) -> Result<(), AllocError> {
    for package in packages {
        write!(text, ", {package:?}")?;
    }
    Ok(())
}

/// Puts the tree of a source after a text.
fn push_tree(alloc: Global, text: &mut String, source: &Source) -> Result<(), AllocError> {
    let contents = source.contents.as_str();
    if contents.len() > 1_000_000 {
        return text.push_str("too long\n");
    }
    match read_file(alloc, contents, 1000) {
        Ok(SourceFile { file, nested }) => {
            let mut shown = format!(in alloc; "{file:?}")?;
            push_nested(&mut shown, &nested)?;
            let short = without(alloc, shown.as_str(), NO_DOCS)?;
            let shorter = without(alloc, short.as_str(), NO_ATTRIBUTES)?;
            let shortest = without(alloc, shorter.as_str(), NO_NESTED)?;
            write!(text, "{}\n", shortest.as_str())
        }
        Err(fault) => write!(text, "{fault}\n"),
    }
}

/// The trees of the sources of a map, a line each.
pub fn tree_view(alloc: Global, map: &SourceMap) -> Result<String, AllocError> {
    let mut text = String::new(alloc);
    for source in map.sources() {
        push_tree(alloc, &mut text, source)?;
    }
    Ok(text)
}
