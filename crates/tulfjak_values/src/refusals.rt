//! Spans and refusals.

use crate::answers::push_answer;
use std::alloc::{AllocError, Global};
use tulfjak::source::{compare_spans, is_same_span};
use tulfjak::{ParseError, ParseErrorKind, Span};

/// Adds a span that was moved on, and returns it.
fn push_span(text: &mut String) -> Result<Span, AllocError> {
    let mut span = Span { start: 1, end: 2 };
    span.adjust(3);
    let is_same = is_same_span(span, Span { start: 4, end: 5 });
    push_answer(text, "Span::adjust", &(span, is_same))?;
    push_answer(text, "compare_spans", &compare_spans(span, Span::default()))?;
    Ok(span)
}

/// A refusal at a span, which ends later than at first.
fn refusal(alloc: Global, span: Span) -> Result<ParseError, AllocError> {
    let message = String::from_str(alloc, "no such thing")?;
    let mut refusal = ParseError::new_syntax(span, message).with_rule(7);
    if let ParseErrorKind::Syntax { span, message: _ } = refusal.kind_mut() {
        span.end = 9;
    }
    Ok(refusal)
}

/// Adds what calls on a refusal return.
fn push_refusal(alloc: Global, refusal: &ParseError, text: &mut String) -> Result<(), AllocError> {
    push_answer(text, "ParseError::kind", refusal.kind())?;
    push_answer(text, "ParseError::rule", &(refusal.rule(), refusal.span()))?;
    push_answer(text, "ParseError::to_string", &refusal.to_string(alloc)?)
}

/// Adds what calls on spans and refusals return.
pub fn push_refusals(alloc: Global, text: &mut String) -> Result<(), AllocError> {
    let span = push_span(text)?;
    push_refusal(alloc, &refusal(alloc, span)?, text)?;
    push_answer(
        text,
        "ParseError::of",
        &ParseError::of(ParseErrorKind::OutOfMemory, 45),
    )
}
