//! The sources of a case, and what they come to; and the view `sources`, which says of each
//! source its place, its path and its text, with `|` after it.

use std::alloc::{AllocError, Global};
use wit_groups::GroupResolver;
use wit_package_views::read_marked;
use wit_text::SourceMap;
use wit_tool::bundle;
use wit_type_tree::ParseResult;
use wit_views::{Found, rest_after};

/// The path of a source that has none.
const PATH: &str = "stdin.wit";

/// The map that a view goes over: of a text as the program splits it, or of the sources of the case.
pub fn map_for(alloc: Global, view: &str, sources: &str) -> ParseResult<SourceMap> {
    match view {
        "input" | "sources" | "large" => bundle(alloc, sources),
        _ => map_of(alloc, sources),
    }
}

/// The map of some sources.
pub fn map_of(alloc: Global, sources: &str) -> ParseResult<SourceMap> {
    let mut map = SourceMap::new(alloc);
    match sources.strip_prefix("=== ") {
        Some(sources) => {
            for source in sources.split("\n=== ") {
                let (path, contents) = source.split_once('\n').unwrap_or((source, ""));
                map.push(alloc, path, contents)?;
            }
        }
        None => map.push(alloc, PATH, sources)?,
    }
    Ok(map)
}

/// Pushes the tree of each source of a map, in their order.
fn push_all<'a>(
    alloc: Global,
    resolver: &mut GroupResolver<'a>,
    map: &'a SourceMap,
) -> ParseResult<()> {
    for source in map.sources() {
        let file = read_marked(alloc, source)?;
        resolver.push(alloc, file)?;
    }
    Ok(())
}

/// What the sources of a map come to, in their order.
pub fn resolved(alloc: Global, map: &SourceMap) -> Found {
    let mut resolver = GroupResolver::new(alloc);
    let pushed = push_all(alloc, &mut resolver, map);
    rest_after(pushed, resolver.resolve(alloc))
}

/// The place, the path and the text of each source of a map.
pub fn sources_view(alloc: Global, map: &SourceMap) -> Result<String, AllocError> {
    let mut text = String::new(alloc);
    for source in map.sources() {
        let (path, contents) = (source.path.as_str(), source.contents.as_str());
        write!(text, "{} {path}\n{contents}|\n", source.offset)?;
    }
    Ok(text)
}
