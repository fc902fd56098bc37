//! Spans that are moved, as when the sources of two packages come into one map.

use std::alloc::{AllocError, Global};
use tulfjak::package::HasSpans;
use tulfjak::{ParseResult, SourceMap, UnresolvedPackage, UnresolvedPackageGroup};

/// A map in which another source comes before those of a map.
fn map_after(alloc: Global, sources: &SourceMap) -> ParseResult<SourceMap> {
    let mut map = SourceMap::new(alloc);
    map.push(alloc, "front.wit", "package front:front;")?;
    for source in sources.sources() {
        map.push(alloc, source.path.as_str(), source.contents.as_str())?;
    }
    Ok(map)
}

/// Moves the spans of a package to where its first source is in such a map.
fn move_into(map: &SourceMap, package: &mut UnresolvedPackage) {
    if let Some(source) = map.sources().get(1) {
        if package.spans_fit(source.offset) {
            package.adjust_spans(source.offset);
        }
    }
}

/// Writes the slices at which the interfaces of a package are named.
fn push_slices(
    text: &mut String,
    map: &SourceMap,
    package: &UnresolvedPackage,
) -> Result<(), AllocError> {
    for interface in package.interfaces.iter() {
        if let Some((path, slice)) = map.locate(interface.span) {
            write!(text, "{path}: {slice}\n")?;
        }
    }
    Ok(())
}

/// The slices at which the interfaces of a group are named, found in a map in which another source comes
/// before the group's own.
pub fn moved(alloc: Global, group: &mut UnresolvedPackageGroup) -> ParseResult<String> {
    let map = map_after(alloc, &group.source_map)?;
    move_into(&map, &mut group.main);
    let mut text = String::new(alloc);
    push_slices(&mut text, &map, &group.main)?;
    Ok(text)
}
