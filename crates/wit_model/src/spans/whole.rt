//! The spans of interfaces and worlds: their own and those of what they hold.
ghost use Rattle.wit_model.specs.Spans.{interface_spans, item_spans, shifted_interface, shifted_item, shifted_world, world_spans};

use crate::interface::Interface;
use crate::world::{World, WorldItem};
use wit_types::HasSpans;

impl HasSpans for Interface {
    ghost spans = { interface_spans };

    ghost moved = { shifted_interface };

    fn spans_fit(&self, offset: u32) -> bool {
        self.span.spans_fit(offset) && self.functions.spans_fit(offset)
    }

    fn adjust_spans(&mut self, offset: u32) {
        self.span.adjust_spans(offset);
        self.functions.adjust_spans(offset);
    }
}

impl HasSpans for WorldItem {
    ghost spans = { item_spans };

    ghost moved = { shifted_item };

    fn spans_fit(&self, offset: u32) -> bool {
        match self {
            WorldItem::Interface { span, .. } => span.spans_fit(offset),
            WorldItem::Function(function) => function.spans_fit(offset),
            WorldItem::Type_ { span, .. } => span.spans_fit(offset),
        }
    }

    fn adjust_spans(&mut self, offset: u32) {
        match self {
            WorldItem::Interface { span, .. } => span.adjust_spans(offset),
            WorldItem::Function(function) => function.adjust_spans(offset),
            WorldItem::Type_ { span, .. } => span.adjust_spans(offset),
        }
    }
}

impl HasSpans for World {
    ghost spans = { world_spans };

    ghost moved = { shifted_world };

    fn spans_fit(&self, offset: u32) -> bool {
        if !self.span.spans_fit(offset) {
            return false;
        }
        if !self.imports.spans_fit(offset) {
            return false;
        }
        if !self.exports.spans_fit(offset) {
            return false;
        }
        self.includes.spans_fit(offset)
    }

    fn adjust_spans(&mut self, offset: u32) {
        self.span.adjust_spans(offset);
        self.imports.adjust_spans(offset);
        self.exports.adjust_spans(offset);
        self.includes.adjust_spans(offset);
    }
}
