//! A source.
ghost use Rattle.std.specs.Prelude.{◌≡◌, ◌+◌, ◌<◌, ◌^◌, length, string_bytes, IfSome, IfNone};

use crate::place::{Place, column_after, line_end, line_number, line_start};
use std::alloc::AllocError;
use wit_values::Span;

/// A text, where it comes from, and its place among the sources.
#[derive(Debug, PartialEq, Eq, Drop)]
pub struct Source {
    /// Where the text comes from, as refusals name it.
    pub path: String,
    /// The text.
    pub contents: String,
    /// The place of the text's first byte.
    pub offset: u32,
    pub ghost fits: { offset + length (string_bytes contents) < 2 ^ 32 },
}

impl Source {
    ghost use Rattle.wit_lex.specs.Places.{IsPlace};
    ghost use Rattle.wit_lex.specs.Sources.{IsLocated, LiesIn};

    /// The path, and the span's slice where both ends lie in this source, its end included, on
    /// character borders.
    pub fn locate(&self, span: Span) -> Option<(&str, &str)>
        ensures found { IfSome result (λ found. IsLocated self.now span found.0.now found.1.now) }
        ensures none { IfNone result (LiesIn self.now span → ⊥) }
    {
        if span.start < self.offset || span.end < span.start {
            return None;
        }
        let from = (span.start - self.offset) as usize;
        let to = (span.end - self.offset) as usize;
        let text = self.contents.as_str();
        if !text.is_char_boundary(from) || !text.is_char_boundary(to) {
            return None;
        }
        Some((self.path.as_str(), &text[from..to]))
    }

    /// Where the span begins, if both of its ends lie in this source, as [`Source::locate`] has it.
    pub fn place(&self, span: Span) -> Option<Place<'_>>
        ensures found { IfSome result (IsPlace self.now span) }
        ensures none { IfNone result (LiesIn self.now span → ⊥) }
    {
        let Some((path, _)) = self.locate(span) else {
            return None;
        };
        let text = self.contents.as_str();
        let at = (span.start - self.offset) as usize;
        let start = line_start(text.as_bytes(), at);
        let end = line_end(text.as_bytes(), at);
        Some(Place {
            path,
            line: line_number(text.as_bytes(), start),
            column: column_after(&text[start..at]),
            text: &text[start..end],
        })
    }
}

impl Clone for Source {
    ghost use Rattle.wit_lex.specs.Sources.{stated_of};

    ghost is_clone = { λ s copy. stated_of copy ≡ stated_of s };

    fn clone(&self) -> Result<Source, AllocError> {
        Ok(Source {
            path: self.path.clone()?,
            contents: self.contents.clone()?,
            offset: self.offset,
        })
    }
}
