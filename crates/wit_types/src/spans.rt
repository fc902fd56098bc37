//! Values that hold spans, which move together.
ghost use Rattle.std.specs.Prelude.{◌≡◌, ◌∷◌, [], ℕ, List};
ghost use Rattle.std.specs.Bool.{MatchBool};
ghost use Rattle.wit_values.specs.declared.span.Span.{Span as TheSpan};
ghost use Rattle.wit_types.specs.Spans.{AllFit, shifted};

mod arenas;
mod parts;
mod required;
mod rows;
mod tables;
mod whole;

use wit_values::Span;

/// A value that holds spans, which move together.
pub trait HasSpans {
    ghost spans: { Self → List TheSpan };

    ghost moved: { ℕ → Self → Self };

    /// Whether `offset` bytes can be added to both ends of every span of the value.
    fn spans_fit(&self, offset: u32) -> bool
        ensures { MatchBool result (AllFit offset (spans self.now)) (AllFit offset (spans self.now) → ⊥) };

    /// Moves both ends of every span of the value on by `offset` bytes; nothing else changes.
    fn adjust_spans(&mut self, offset: u32)
        requires { AllFit offset (spans self.old) }
        ensures { self.new ≡ moved offset self.old };
}

impl HasSpans for Span {
    ghost spans = { λ s. s ∷ [] };

    ghost moved = { shifted };

    fn spans_fit(&self, offset: u32) -> bool {
        let last = u32::MAX - offset;
        self.start <= last && self.end <= last
    }

    fn adjust_spans(&mut self, offset: u32) {
        self.adjust(offset);
    }
}
