//! The view `lines`: the lines of refusals in the words `m`, in the second of two sources, after the first
//! one, and nowhere.

use anyhow::Result;
use std::alloc::Global;
use std::{io, str};
use wit_listing::error_line;
use wit_text::SourceMap;
use wit_type_tree::{ParseError, ParseErrorKind};
use wit_values::Span;

/// The number of each refusal, and where it is.
const PLACES: [(u8, u32, u32); 4] = [(47, 55, 68), (47, 31, 32), (45, 0, 0), (52, 0, 0)];

/// Puts the line of a refusal of this number at this span after a text.
fn push_line(
    alloc: Global,
    text: &mut String,
    map: &SourceMap,
    rule: u8,
    span: Span,
) -> Result<()> {
    let message = String::from_str(alloc, "m")?;
    let fault = ParseError::of(ParseErrorKind::Syntax { span, message }, rule);
    let mut out: Vec<u8> = Vec::new(alloc);
    error_line(alloc, map, &fault, &mut out).map_err(io::Error::from)?;
    Ok(text.push_str(str::from_utf8(out.as_slice())?)?)
}

/// The lines of refusals at places of a map.
pub fn lines_view(alloc: Global, map: &SourceMap) -> Result<String> {
    let mut text = String::new(alloc);
    for (rule, start, end) in PLACES {
        push_line(alloc, &mut text, map, rule, Span { start, end })?;
    }
    Ok(text)
}
