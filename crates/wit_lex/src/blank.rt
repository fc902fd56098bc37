//! Blanks and comments.
ghost use Rattle.std.specs.Prelude.{◌≡◌, ◌+◌, ◌-◌, ◌<◌, ◌≤◌, length, slice_index, MatchResult, IfOk, IfErr, IfNone, IfSome};
ghost use Rattle.wit_type_tree.specs.Comments.{IsLine, IsNested, IsPair, is_blank as is_blank_byte};
ghost use Rattle.wit_lex.specs.Blanks.{Begins, IsEndless, IsFirst, IsNextSlash, IsNoSlash, IsSkipped};

use memchr::memchr;

/// What begins at a place.
#[derive(Clone, Copy)]
pub enum Blank {
    /// A blank.
    Space,
    /// A comment, and where it ends: before the LF of its line, or after its `*/`.
    Comment(usize),
    /// A comment that has no end.
    Endless,
    /// Neither a blank nor a comment.
    Nothing,
}

/// Space, tab, LF or CR.
pub(crate) fn is_blank(c: u8) -> bool
    ensures { result ≡ is_blank_byte c }
{
    c == b' ' || c == b'\n' || c == b'\t' || c == b'\r'
}

/// The end of the line that a `//` at a place is in: that of its LF, or the text's end.
fn line_end(bytes: &[u8], from: usize) -> usize
    requires { IsPair bytes.now from 47 47 }
    ensures { IsLine bytes.now from result }
{
    match memchr(b'\n', &bytes[from + 2..]) {
        Some(count) => from + 2 + count,
        None => bytes.len(),
    }
}

/// The first `/` from a place on.
#[inline(always)]
fn next_slash(bytes: &[u8], from: usize) -> Option<usize>
    requires { from ≤ length bytes.now }
    ensures found { IfSome result (IsNextSlash bytes.now from) }
    ensures none { IfNone result (IsNoSlash bytes.now from (length bytes.now)) }
{
    match memchr(b'/', &bytes[from..]) {
        Some(count) => Some(from + count),
        None => None,
    }
}

/// The end of the block comment whose first two bytes are at a place. Such comments nest.
///
/// Each `/*` and each `*/` has a `/`, so that what is between two of these is passed at once.
fn block_end(bytes: &[u8], from: usize) -> Option<usize>
    requires { IsPair bytes.now from 47 42 }
    ensures whole { IfSome result (λ end. IsNested bytes.now from 0 end) }
    ensures range { IfSome result (λ end. (from + 2 ≤ end) × (end ≤ length bytes.now)) }
    ensures last { IfSome result (λ end. slice_index bytes.now (end - 1) ≡ 47) }
    ensures endless { IfNone result (IsEndless bytes.now from) }
{
    let len = bytes.len();
    let mut depth: usize = 1;
    let mut at = from + 2;
    while let Some(slash) = next_slash(bytes, at) {
        if slash > at && bytes[slash - 1] == b'*' {
            at = slash + 1;
            if depth <= 1 {
                return Some(at);
            }
            depth -= 1;
        } else if len - slash >= 2 && bytes[slash + 1] == b'*' {
            at = slash + 2;
            depth += 1;
        } else {
            at = slash + 1;
        }
    }
    None
}

/// What begins at a place.
#[inline(always)]
pub fn blank_at(bytes: &[u8], at: usize) -> Blank
    requires { at < length bytes.now }
    ensures { Begins bytes.now at result }
{
    let first = bytes[at];
    if is_blank(first) {
        return Blank::Space;
    }
    if first != b'/' || bytes.len() - at < 2 {
        return Blank::Nothing;
    }
    let second = bytes[at + 1];
    if second == b'/' {
        return Blank::Comment(line_end(bytes, at));
    }
    if second != b'*' {
        return Blank::Nothing;
    }
    match block_end(bytes, at) {
        Some(end) => Blank::Comment(end),
        None => Blank::Endless,
    }
}

/// The first place from `from` on where neither a blank nor a comment begins; else the place of the
/// comment that has no end.
pub fn skip_blanks(bytes: &[u8], from: usize) -> Result<usize, usize>
    requires { from ≤ length bytes.now }
    ensures range { MatchResult result (λ at. (from ≤ at) × (at ≤ length bytes.now)) (λ at. at + 2 ≤ length bytes.now) }
    ensures first { IfOk result (IsFirst bytes.now from) }
    ensures endless { IfErr result (λ at. IsSkipped bytes.now from at × IsEndless bytes.now at) }
{
    let len = bytes.len();
    let mut at = from;
    while at < len {
        let first = bytes[at];
        if is_blank(first) {
            at += 1;
            continue;
        }
        if first != b'/' {
            return Ok(at);
        }
        match blank_at(bytes, at) {
            Blank::Space => at += 1,
            Blank::Comment(end) => at = end,
            Blank::Endless => return Err(at),
            Blank::Nothing => return Ok(at),
        }
    }
    Ok(at)
}
