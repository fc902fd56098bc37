//! What is at spans.

use std::alloc::AllocError;
use wit_text::SourceMap;
use wit_tree::Span;

/// Puts what is at a span after a text, after a blank.
pub fn push_slice(text: &mut String, map: &SourceMap, span: Span) -> Result<(), AllocError> {
    let slice = match map.locate(span) {
        Some((_, slice)) => slice,
        None => "?",
    };
    text.push_str(" ")?;
    text.push_str(slice)
}

/// Puts what is at each span after a text.
pub fn push_slices(text: &mut String, map: &SourceMap, spans: &[Span]) -> Result<(), AllocError> {
    for span in spans {
        push_slice(text, map, *span)?;
    }
    Ok(())
}
