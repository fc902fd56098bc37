//! The view `read`: whether each source is read, or the number of its refusal and the source in three
//! parts, of which the one in the middle is refused.

use std::alloc::{AllocError, Global};
use wit_text::{Source, SourceMap, read_file};
use wit_tree::ParseError;

/// Puts the number of a refusal after a text, and the refused source in its three parts.
pub fn push_refused(text: &mut String, source: &str, fault: &ParseError) -> Result<(), AllocError> {
    let span = fault.span();
    let (start, end) = (span.start as usize, span.end as usize);
    let prefix = source.get(..start).unwrap_or("?");
    let part = source.get(start..end).unwrap_or("?");
    let back = source.get(end..).unwrap_or("?");
    write!(text, "{}|{prefix}|{part}|{back}\n", fault.rule())
}

/// Puts whether a source is read after a text.
fn push_source(alloc: Global, text: &mut String, source: &Source) -> Result<(), AllocError> {
    let contents = source.contents.as_str();
    if contents.len() > 1_000_000 {
        return text.push_str("too long\n");
    }
    match read_file(alloc, contents, 0) {
        Ok(_) => text.push_str("read\n"),
        Err(fault) => push_refused(text, contents, &fault),
    }
}

/// Whether each source of a map is read, a line each.
pub fn read_view(alloc: Global, map: &SourceMap) -> Result<String, AllocError> {
    let mut text = String::new(alloc);
    for source in map.sources() {
        push_source(alloc, &mut text, source)?;
    }
    Ok(text)
}
