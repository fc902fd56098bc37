//! Tokens.
ghost use Rattle.std.specs.Prelude.{◌≡◌, ◌<◌, ◌≤◌, ◌-◌, [], length, slice_index, Ok, Err, IfOk, IfErr, MatchResult, OnOk, OnErr};
ghost use Rattle.wit_lex.specs.declared.kind.Kind.TheVariants.{End};
ghost use Rattle.wit_lex.specs.TextFaults.{IsNoToken};
ghost use Rattle.wit_lex.specs.Lexis.{first_token, lexeme};
ghost use Rattle.wit_lex.specs.Starts.{IsEnd, IsNoStart};
ghost use Rattle.wit_lex.specs.Tokens.{IsFound, IsToken};

use crate::blank::skip_blanks;
use crate::fault::{ReadError, ReadFault, ReadResult};
use crate::kind::{Kind, kind_of, sign};
use crate::scan::{cut, digits_end, is_digit, is_letter, width, word_end};

/// A token: what it is, its range in the text, which is empty only at the end, and what is in it.
#[derive(Clone, Copy, Debug)]
pub struct Token<'a> {
    pub kind: Kind,
    pub start: usize,
    pub end: usize,
    pub text: &'a str,
}

/// The end of the word, the number, the escaped name or the arrow at a place, or that place where
/// none begins.
fn token_end(bytes: &[u8], start: usize) -> usize
    requires { start < length bytes.now }
    ensures after { start ≤ result }
    ensures within { result ≤ length bytes.now }
    ensures first { start < result → slice_index bytes.now start < 128 }
    ensures last { start < result → slice_index bytes.now (result - 1) < 128 }
    ensures none { result ≡ start → IsNoStart bytes.now start }
    ensures end { IsEnd bytes.now start result }
{
    let first = bytes[start];
    if is_letter(first) {
        return word_end(bytes, start);
    }
    if is_digit(first) {
        return digits_end(bytes, start);
    }
    if bytes.len() - start < 2 {
        return start;
    }
    let next = bytes[start + 1];
    if first == b'-' && next == b'>' {
        return start + 2;
    }
    if first == b'%' && is_letter(next) {
        return word_end(bytes, start + 1);
    }
    start
}

/// The token that says that the text ends at a place.
fn end_at<'a>(start: usize) -> Token<'a>
    ensures kind { result.kind ≡ End }
    ensures start { result.start ≡ start }
    ensures end { result.end ≡ start }
    ensures text { result.text.now ≡ [] }
{
    Token {
        kind: Kind::End,
        start,
        end: start,
        text: "",
    }
}

/// The token at a place.
fn token_at<'a>(source: &'a str, start: usize) -> ReadResult<Token<'a>>
    requires within { start < length source.now }
    ensures token { IfOk result (λ t. IsToken source.now t) }
    ensures found { IfOk result (λ t. IsFound source.now t.start t.end t.text.now t.kind) }
    ensures there { IfOk result (λ t. start ≡ t.start) }
    ensures strange { IfErr result (IsNoToken source.now start) }
{
    let bytes = source.as_bytes();
    let first = bytes[start];
    if !is_letter(first) {
        if let Some(kind) = sign(first) {
            let end = start + 1;
            let text = cut(source, start, end);
            return Ok(Token {
                kind,
                start,
                end,
                text,
            });
        }
    }
    let end = token_end(bytes, start);
    if end == start {
        let end = (start + width(first)).min(bytes.len());
        return Err(ReadError::Fault(ReadFault::Character, start, end));
    }
    let text = cut(source, start, end);
    Ok(Token {
        kind: kind_of(first, text),
        start,
        end,
        text,
    })
}

impl<'a> Token<'a> {
    /// Becomes the token after the blanks from a place on; after a refusal it is as it was.
    ///
    /// It is written where it is: each token of a source goes through here.
    #[inline(never)]
    pub fn advance(&mut self, source: &'a str, from: usize) -> ReadResult<()>
        requires within { from ≤ length source.now }
        ensures token { OnOk result (IsToken source.now self.new) }
        ensures found { OnOk result (IsFound source.now self.new.start self.new.end self.new.text.now self.new.kind) }
        ensures onward { OnOk result (from ≤ self.new.start) }
        ensures kept { OnErr result (self.new ≡ self.old) }
        ensures lexed { OnOk result (first_token source.now from ≡ Ok (lexeme self.new)) }
        ensures unlexed { IfErr result (λ e. first_token source.now from ≡ Err e) }
    {
        let bytes = source.as_bytes();
        let start = match skip_blanks(bytes, from) {
            Ok(start) => start,
            Err(start) => return Err(ReadError::Fault(ReadFault::Comment, start, start + 2)),
        };
        if start == bytes.len() {
            *self = end_at(start);
            return Ok(());
        }
        *self = token_at(source, start)?;
        Ok(())
    }
}

/// The token after the blanks from a place on.
pub fn next_token<'a>(source: &'a str, from: usize) -> ReadResult<Token<'a>>
    requires within { from ≤ length source.now }
    ensures token { IfOk result (λ t. IsToken source.now t) }
    ensures found { IfOk result (λ t. IsFound source.now t.start t.end t.text.now t.kind) }
    ensures onward { IfOk result (λ t. from ≤ t.start) }
    ensures lexed { MatchResult result (λ t. first_token source.now from ≡ Ok (lexeme t)) (λ e. first_token source.now from ≡ Err e) }
{
    let mut token = end_at(from);
    token.advance(source, from)?;
    Ok(token)
}
