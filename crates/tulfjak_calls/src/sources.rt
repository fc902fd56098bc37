//! Sources and places in them.

use crate::answers::push_answer;
use std::alloc::{AllocError, Global};
use tulfjak::source::{Source, bundle, by_path, is_same_map};
use tulfjak::{ParseResult, SourceMap, Span};

/// The span that is looked for in these sources.
const SPAN: Span = Span { start: 8, end: 12 };

/// Where spans of three sources begin and end, the second of which is empty.
const PLACES: &str = "0 7,16 16,17 17,16 17,18 20,18 19,19 20,19 19,22 23,23 23,23 24,24 24,7 0";

/// Where spans of two sources begin and end, the first of which has four lines, the second and the last of
/// them empty.
const SHOWN: &str = "0 7,8 11,12 12,13 13,14 14,22 23,24 24,25 25,26 30,30 30,31 31,18 19";

fn number(digits: &str) -> u32 {
    digits.parse().unwrap_or(0)
}

/// Adds what is at spans of a map, whose places are in a text.
fn push_places(text: &mut String, map: &SourceMap, places: &str) -> Result<(), AllocError> {
    for place in places.split(',') {
        let (start, end) = place.split_once(' ').unwrap_or((place, ""));
        let span = Span {
            start: number(start),
            end: number(end),
        };
        push_answer(text, place, &(map.locate(span), map.place(span)))?;
    }
    Ok(())
}

/// Adds what is at a span of a source.
fn push_source(text: &mut String, source: &Source) -> Result<(), AllocError> {
    let found = (&source.path, source.locate(SPAN), source.place(SPAN));
    push_answer(text, "by_path", &found)
}

/// Adds the paths of sources, in the order in which these are read.
fn push_paths(alloc: Global, text: &mut String, sources: &[Source]) -> Result<(), AllocError> {
    for source in &by_path(alloc, sources)? {
        push_source(text, source)?;
    }
    Ok(())
}

/// Two sources, the first of which has this path and these contents.
fn pair(alloc: Global, path: &str, source: &str) -> ParseResult<SourceMap> {
    let mut map = SourceMap::new(alloc);
    map.push(alloc, path, source)?;
    map.push(alloc, "b.wit", "last")?;
    Ok(map)
}

/// Three sources, the second of which is empty.
fn triple(alloc: Global) -> ParseResult<SourceMap> {
    let mut map = SourceMap::new(alloc);
    map.push(alloc, "a.wit", "package foo:foo;")?;
    map.push(alloc, "", "")?;
    map.push(alloc, "b.wit", "é: u")?;
    Ok(map)
}

/// Adds whether a map is the same as its copy, and as that with a source after it.
fn push_copied(alloc: Global, text: &mut String, map: &SourceMap) -> ParseResult<()> {
    let mut copy = map.clone()?;
    let is_same = is_same_map(map, &copy);
    copy.push(alloc, "c.wit", "")?;
    let answers = (is_same, is_same_map(map, &copy), copy.sources().len());
    push_answer(text, "is_same_map", &answers)?;
    Ok(())
}

/// Adds what calls on three sources return.
fn push_triple(alloc: Global, text: &mut String) -> ParseResult<()> {
    let map = triple(alloc)?;
    push_places(text, &map, PLACES)?;
    push_copied(alloc, text, &map)
}

/// Adds what calls on the source return, and on one after it, whose path comes before.
fn push_bundle(alloc: Global, text: &mut String, source: &str) -> ParseResult<()> {
    let map = pair(alloc, "stdin.wit", source)?;
    push_paths(alloc, text, map.sources())?;
    let bundled = bundle(alloc, source)?;
    push_answer(text, "is_same_map", &is_same_map(&map, &bundled))?;
    Ok(())
}

/// Adds what calls on sources return.
pub fn push_sources(alloc: Global, text: &mut String, source: &str) -> ParseResult<()> {
    push_places(text, &SourceMap::new(alloc), "0 0")?;
    push_triple(alloc, text)?;
    push_places(
        text,
        &pair(alloc, "a.wit", "package a:b;\n\n// é ü {\n")?,
        SHOWN,
    )?;
    push_bundle(alloc, text, source)
}
