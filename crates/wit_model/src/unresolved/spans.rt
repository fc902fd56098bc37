//! The spans of packages: those that their calls answer, and those of what their arenas hold.
ghost use Rattle.wit_model.specs.Spans.{package_spans, shifted_package};

use crate::unresolved::UnresolvedPackage;
use wit_types::HasSpans;

/// The spans of a package are those that `package_name_span`, `unknown_type_spans`,
/// `foreign_dep_spans` and `required_resource_types` answer, and those of its worlds, interfaces
/// and types.
impl HasSpans for UnresolvedPackage {
    ghost spans = { package_spans };

    ghost moved = { shifted_package };

    fn spans_fit(&self, offset: u32) -> bool {
        if !self.name_span.spans_fit(offset) {
            return false;
        }
        if !self.unknown_type_spans.spans_fit(offset) {
            return false;
        }
        if !self.foreign_dep_spans.spans_fit(offset) {
            return false;
        }
        if !self.required_resource_types.spans_fit(offset) {
            return false;
        }
        if !self.worlds.spans_fit(offset) {
            return false;
        }
        if !self.interfaces.spans_fit(offset) {
            return false;
        }
        self.types.spans_fit(offset)
    }

    fn adjust_spans(&mut self, offset: u32) {
        self.name_span.adjust_spans(offset);
        self.unknown_type_spans.adjust_spans(offset);
        self.foreign_dep_spans.adjust_spans(offset);
        self.required_resource_types.adjust_spans(offset);
        self.worlds.adjust_spans(offset);
        self.interfaces.adjust_spans(offset);
        self.types.adjust_spans(offset);
    }
}
