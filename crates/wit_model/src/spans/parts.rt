//! The spans of includes: each has its own alone.
ghost use Rattle.wit_model.specs.Spans.{include_spans, shifted_include};

use crate::world::WorldInclude;
use wit_types::HasSpans;

impl HasSpans for WorldInclude {
    ghost spans = { include_spans };

    ghost moved = { shifted_include };

    fn spans_fit(&self, offset: u32) -> bool {
        self.span.spans_fit(offset)
    }

    fn adjust_spans(&mut self, offset: u32) {
        self.span.adjust_spans(offset);
    }
}
