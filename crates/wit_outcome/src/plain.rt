//! A refusal of sources as plain fields.
ghost use Rattle.std.specs.Prelude.{◌≡◌, IfNone, IfOk, IfSome};
ghost use Rattle.wit_lex.specs.declared.source.Source.{Source};
ghost use Rattle.wit_outcome.specs.Plain.{IsHolding, IsPlain, no_refusal};

use std::alloc::{AllocError, Global};
use wit_lex::Source;
use wit_lex::source_map::source_with;
use wit_type_tree::ParseError;
use wit_values::Text;

/// A refusal of sources as plain fields.
#[derive(Drop)]
pub struct Plain {
    /// The number of the broken rule.
    pub rule: u8,
    /// Whether the refusal is in a source. If not, `start` and `end` are 0 and `path` is empty.
    pub placed: bool,
    /// The first byte of the range, counted from 0 in the source.
    pub start: u32,
    /// The first byte after the range.
    pub end: u32,
    /// The path of the source.
    pub path: Text,
    pub message: Text,
}

/// No refusal.
pub fn no_refusal(alloc: Global) -> Plain
    ensures { result ≡ no_refusal }
{
    Plain {
        rule: 0,
        placed: false,
        start: 0,
        end: 0,
        path: Text::from(String::new(alloc)),
        message: Text::from(String::new(alloc)),
    }
}

/// The source in which a refusal is.
fn source_of<'a>(sources: &'a [Source], fault: &ParseError) -> Option<&'a Source>
    ensures found { IfSome result (λ source. IsHolding sources.now fault.now source.now) }
    ensures none { IfNone result ((s : Source) → IsHolding sources.now fault.now s → ⊥) }
{
    let rule = fault.rule();
    if rule == 4 || rule == 45 || rule == 52 {
        return None;
    }
    source_with(sources, fault.span())
}

/// The plain fields of a refusal of sources.
pub fn plain_of(alloc: Global, sources: &[Source], fault: &ParseError) -> Result<Plain, AllocError>
    ensures { IfOk result (IsPlain sources.now fault.now) }
{
    let message = Text::from(fault.to_string(alloc)?);
    let rule = fault.rule();
    match source_of(sources, fault) {
        Some(source) => {
            let span = fault.span();
            let path = Text::from_str(alloc, source.path.as_str())?;
            Ok(Plain {
                rule,
                placed: true,
                start: span.start - source.offset,
                end: span.end - source.offset,
                path,
                message,
            })
        }
        None => Ok(Plain {
            rule,
            placed: false,
            start: 0,
            end: 0,
            path: Text::from(String::new(alloc)),
            message,
        }),
    }
}
