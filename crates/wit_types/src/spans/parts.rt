//! The spans of fields, flags and cases: each has its own alone.
ghost use Rattle.wit_types.specs.Spans.{case_spans, enum_case_spans, field_spans, flag_spans, shifted_case, shifted_enum_case, shifted_field, shifted_flag};

use crate::spans::HasSpans;
use crate::types::{Case, EnumCase, Field, Flag};

impl HasSpans for Field {
    ghost spans = { field_spans };

    ghost moved = { shifted_field };

    fn spans_fit(&self, offset: u32) -> bool {
        self.span.spans_fit(offset)
    }

    fn adjust_spans(&mut self, offset: u32) {
        self.span.adjust_spans(offset);
    }
}

impl HasSpans for Flag {
    ghost spans = { flag_spans };

    ghost moved = { shifted_flag };

    fn spans_fit(&self, offset: u32) -> bool {
        self.span.spans_fit(offset)
    }

    fn adjust_spans(&mut self, offset: u32) {
        self.span.adjust_spans(offset);
    }
}

impl HasSpans for Case {
    ghost spans = { case_spans };

    ghost moved = { shifted_case };

    fn spans_fit(&self, offset: u32) -> bool {
        self.span.spans_fit(offset)
    }

    fn adjust_spans(&mut self, offset: u32) {
        self.span.adjust_spans(offset);
    }
}

impl HasSpans for EnumCase {
    ghost spans = { enum_case_spans };

    ghost moved = { shifted_enum_case };

    fn spans_fit(&self, offset: u32) -> bool {
        self.span.spans_fit(offset)
    }

    fn adjust_spans(&mut self, offset: u32) {
        self.span.adjust_spans(offset);
    }
}
