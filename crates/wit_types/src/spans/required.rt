//! The span of a type that a handle requires: that of its name there.
ghost use Rattle.wit_types.specs.Spans.{required_spans, shifted_required};

use crate::ids::TypeId;
use crate::spans::HasSpans;
use wit_values::Span;

impl HasSpans for (TypeId, Span) {
    ghost spans = { required_spans };

    ghost moved = { shifted_required };

    fn spans_fit(&self, offset: u32) -> bool {
        self.1.spans_fit(offset)
    }

    fn adjust_spans(&mut self, offset: u32) {
        self.1.adjust_spans(offset);
    }
}
