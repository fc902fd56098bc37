//! Ranges of bytes in the sources.
ghost use Rattle.std.specs.Prelude.{◌≡◌, ◌+◌, ◌<◌, ◌^◌, ◌↔◌, IsTrue};
ghost use Rattle.wit_values.specs.SpanOrder.{span_cmp};

use std::cmp::Ordering;

/// A half-open range of bytes: from the first byte to the one after the last.
///
/// Places count over all sources of a map, one after the other. The default is (0, 0).
#[derive(Clone, Copy, Debug, PartialEq, Eq, PartialOrd, Ord, Hash, Default)]
pub struct Span {
    /// The place of the first byte.
    pub start: u32,
    /// The place after the last byte.
    pub end: u32,
}

impl Span {
    /// Moves both ends on by `offset` bytes, those of a default span too.
    pub fn adjust(&mut self, offset: u32)
        requires start_fits { self.old.start + offset < 2 ^ 32 }
        requires end_fits { self.old.end + offset < 2 ^ 32 }
        ensures start { self.new.start ≡ self.old.start + offset }
        ensures end { self.new.end ≡ self.old.end + offset }
    {
        self.start += offset;
        self.end += offset;
    }
}

/// Whether two spans are the same, by `==`.
pub fn is_same_span(a: Span, b: Span) -> bool
    ensures { IsTrue result ↔ (a ≡ b) }
{
    a == b
}

/// The order of two spans: by their first places, and then by their ends.
pub fn compare_spans(a: Span, b: Span) -> Ordering
    ensures { result ≡ span_cmp a b }
{
    a.cmp(&b)
}
