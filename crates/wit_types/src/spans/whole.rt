//! The spans of types: their own and those of what they hold.
ghost use Rattle.wit_types.specs.Spans.{kind_spans, shifted_kind, shifted_type, type_spans};

use crate::spans::HasSpans;
use crate::types::{TypeDef, TypeDefKind};

/// Only records, flags, variants and enums hold spans: those of their parts.
impl HasSpans for TypeDefKind {
    ghost spans = { kind_spans };

    ghost moved = { shifted_kind };

    fn spans_fit(&self, offset: u32) -> bool {
        match self {
            TypeDefKind::Record(record) => record.fields.spans_fit(offset),
            TypeDefKind::Flags(flags) => flags.flags.spans_fit(offset),
            TypeDefKind::Variant(variant) => variant.cases.spans_fit(offset),
            TypeDefKind::Enum(cases) => cases.cases.spans_fit(offset),
            _ => true,
        }
    }

    fn adjust_spans(&mut self, offset: u32) {
        match self {
            TypeDefKind::Record(record) => record.fields.adjust_spans(offset),
            TypeDefKind::Flags(flags) => flags.flags.adjust_spans(offset),
            TypeDefKind::Variant(variant) => variant.cases.adjust_spans(offset),
            TypeDefKind::Enum(cases) => cases.cases.adjust_spans(offset),
            _ => {}
        }
    }
}

impl HasSpans for TypeDef {
    ghost spans = { type_spans };

    ghost moved = { shifted_type };

    fn spans_fit(&self, offset: u32) -> bool {
        self.span.spans_fit(offset) && self.kind.spans_fit(offset)
    }

    fn adjust_spans(&mut self, offset: u32) {
        self.span.adjust_spans(offset);
        self.kind.adjust_spans(offset);
    }
}
