//! The spans of functions: their own and those of their parameters.
ghost use Rattle.wit_functions.specs.Spans.{function_spans, param_spans, shifted_function, shifted_param};

use crate::function::{Function, Param};
use wit_types::HasSpans;

impl HasSpans for Param {
    ghost spans = { param_spans };

    ghost moved = { shifted_param };

    fn spans_fit(&self, offset: u32) -> bool {
        self.span.spans_fit(offset)
    }

    fn adjust_spans(&mut self, offset: u32) {
        self.span.adjust_spans(offset);
    }
}

impl HasSpans for Function {
    ghost spans = { function_spans };

    ghost moved = { shifted_function };

    fn spans_fit(&self, offset: u32) -> bool {
        self.span.spans_fit(offset) && self.params.spans_fit(offset)
    }

    fn adjust_spans(&mut self, offset: u32) {
        self.span.adjust_spans(offset);
        self.params.adjust_spans(offset);
    }
}
