//! Docs: comments that document what comes after them.
ghost use Rattle.std.specs.Prelude.{◌≡◌, ◌+◌, ◌<◌, ◌≤◌, ◌^◌, ◌++◌, ◌∷◌, [], length, IfOk, IfErr, OnOk, MatchBool};
ghost use Rattle.wit_lex.specs.DocsLexis.{AreDocsFrom, IsDocs, stretched as stretched_span};
ghost use Rattle.wit_lex.specs.TextFaults.{IsUnended};
ghost use Rattle.wit_lex.specs.Lexis.{Stops, first_token};

use crate::blank::{Blank, blank_at, is_blank};
use crate::fault::{ReadError, ReadFault, ReadResult, span_at};
use crate::scan::cut;
use std::alloc::{AllocError, Global};
use wit_type_tree::leaves::Docs;
use wit_values::Span;

/// Whether the comment at a range begins with `///` or `/**`.
fn is_docs(bytes: &[u8], start: usize, end: usize) -> bool
    requires order { start + 2 ≤ end }
    requires within { end ≤ length bytes.now }
    ensures { MatchBool result (IsDocs bytes.now start end) (IsDocs bytes.now start end → ⊥) }
{
    if end - start < 3 {
        return false;
    }
    bytes[start + 2] == bytes[start + 1]
}

/// The span from the first comment of docs to the end of one more.
fn stretched(docs: &Docs<'_>, found: Span) -> Span
    ensures { result ≡ stretched_span docs.now.docs.items docs.now.span found }
{
    if docs.docs.len() == 0 {
        return found;
    }
    Span {
        start: docs.span.start,
        end: found.end,
    }
}

/// Adds a comment to docs.
fn add_comment<'a>(docs: &mut Docs<'a>, comment: &'a str, found: Span) -> Result<(), AllocError>
    ensures comments { OnOk result (docs.new.docs.items ≡ docs.old.docs.items ++ comment.entry ∷ []) }
    ensures span { OnOk result (docs.new.span ≡ stretched_span docs.old.docs.items docs.old.span found) }
{
    let span = stretched(docs, found);
    docs.docs.reserve(1)?;
    docs.docs.push_reserved(comment);
    docs.span = span;
    Ok(())
}

/// The docs among the blanks and comments from a place on, and where these end.
pub fn docs_after<'a>(
    alloc: Global,
    source: &'a str,
    offset: u32,
    from: usize,
) -> ReadResult<(Docs<'a>, usize)>
    requires within { from ≤ length source.now }
    requires fits { offset + length source.now < 2 ^ 32 }
    ensures unended { IfErr result (IsUnended source.now from) }
    ensures lexed { IfOk result (λ found. AreDocsFrom source.now offset from found.0 found.1) }
    ensures unlexed { IfErr result (Stops (first_token source.now from)) }
{
    let bytes = source.as_bytes();
    let len = bytes.len();
    let mut docs = Docs::none(alloc);
    let mut at = from;
    while at < len {
        let first = bytes[at];
        if is_blank(first) {
            at += 1;
            continue;
        }
        if first != b'/' {
            return Ok((docs, at));
        }
        match blank_at(bytes, at) {
            Blank::Space => at += 1,
            Blank::Comment(end) => {
                if is_docs(bytes, at, end) {
                    add_comment(&mut docs, cut(source, at, end), span_at(offset, at, end))?;
                }
                at = end;
            }
            Blank::Endless => {
                return Err(ReadError::Fault(ReadFault::Comment, at, at + 2));
            }
            Blank::Nothing => return Ok((docs, at)),
        }
    }
    Ok((docs, at))
}
