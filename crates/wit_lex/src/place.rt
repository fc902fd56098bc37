//! Where a span begins, as an editor shows it: a line, a column, and what the line says.
ghost use Rattle.std.specs.Prelude.{◌≡◌, ◌+◌, ◌≤◌, length};
ghost use Rattle.std.specs.Str.{chars};
ghost use Rattle.wit_lex.specs.Places.{IsLineEnd, IsLineStart, line_number};

use memchr::{memchr, memchr_iter, memrchr};

/// Where a span begins in its source.
#[derive(Clone, Copy, Debug)]
pub struct Place<'a> {
    /// The path of the source.
    pub path: &'a str,
    /// The number of the line, from 1: one more than there are line feeds before it.
    pub line: usize,
    /// The column, from 1: one more than the characters of the line before the place.
    pub column: usize,
    /// The line, without its line feed.
    pub text: &'a str,
}

/// Where the line begins that an offset lies in: after the last line feed before it.
pub(crate) fn line_start(text: &[u8], at: usize) -> usize
    requires { at ≤ length text.now }
    ensures { IsLineStart text.now at result }
{
    match memrchr(b'\n', &text[..at]) {
        Some(last) => last + 1,
        None => 0,
    }
}

/// Where the line ends that an offset lies in: at the first line feed from there on, or with the text.
pub(crate) fn line_end(text: &[u8], at: usize) -> usize
    requires { at ≤ length text.now }
    ensures { IsLineEnd text.now at result }
{
    match memchr(b'\n', &text[at..]) {
        Some(count) => at + count,
        None => text.len(),
    }
}

/// The number of the line that begins at an offset.
pub(crate) fn line_number(text: &[u8], start: usize) -> usize
    requires { start ≤ length text.now }
    ensures { result ≡ line_number text.now start }
{
    memchr_iter(b'\n', &text[..start]).count() + 1
}

/// The column of what comes after a part of a line.
pub(crate) fn column_after(part: &str) -> usize
    ensures { result ≡ length (chars part.now) + 1 }
{
    part.chars().count() + 1
}
