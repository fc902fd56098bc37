//! Why a text cannot be read.
ghost use Rattle.std.specs.Prelude.{◌≡◌, ◌+◌, ◌<◌, ◌≤◌, ◌^◌, length};
ghost use Rattle.wit_lex.specs.declared.fault.ReadError.TheVariants.{Fault, OutOfMemory};
ghost use Rattle.wit_lex.specs.TextFaults.{IsRefusalOf, IsWithin, rule_of, words_of};

use std::alloc::{AllocError, AllocFailed, Global};
use wit_type_tree::{ParseError, ParseErrorKind};
use wit_values::Span;

/// Why a text cannot be read.
#[derive(Clone, Copy, Debug, PartialEq, Eq)]
pub enum ReadFault {
    /// No token begins with a character.
    Character,
    /// The grammar allows another token, a name is no label, or the text ends too soon.
    Token,
    /// A block comment has no end.
    Comment,
    /// Types are too deep in one another.
    Nesting,
    /// A version is none by SemVer 2.0.0.
    Version,
    /// A number does not fit 32 bits.
    Number,
}

impl ReadFault {
    /// The number of the refusal.
    pub fn rule(self) -> u8
        ensures { result ≡ rule_of self }
    {
        match self {
            ReadFault::Character => 46,
            ReadFault::Token => 47,
            ReadFault::Comment => 48,
            ReadFault::Nesting => 49,
            ReadFault::Version => 50,
            ReadFault::Number => 51,
        }
    }

    /// What the refusal says.
    pub fn message(self) -> &'static str
        ensures { result.now ≡ words_of self }
    {
        match self {
            ReadFault::Character => "unexpected character",
            ReadFault::Token => "unexpected token",
            ReadFault::Comment => "unterminated block comment",
            ReadFault::Nesting => "nested too deeply",
            ReadFault::Version => "invalid version",
            ReadFault::Number => "number too large",
        }
    }
}

/// Why reading ends before its text does.
///
/// It is small, since every result of the reader has room for one; [`ReadError::refusal`] makes the
/// refusal of it once nothing more is read.
#[derive(Clone, Copy, Debug)]
pub enum ReadError {
    /// A fault of the text, and where what is at fault starts and ends.
    Fault(ReadFault, usize, usize),
    /// A growth was refused.
    OutOfMemory,
}

/// What is read, or why it is not.
pub type ReadResult<T> = Result<T, ReadError>;

impl From<AllocError> for ReadError {
    ghost from_gives = { λ _ e. e ≡ OutOfMemory };

    fn from(_e: AllocError) -> ReadError {
        ReadError::OutOfMemory
    }
}

impl<T: Drop> From<AllocFailed<T>> for ReadError {
    ghost from_gives = { λ _ e. e ≡ OutOfMemory };

    fn from(_e: AllocFailed<T>) -> ReadError {
        ReadError::OutOfMemory
    }
}

impl ReadError {
    /// The refusal of a source whose first byte has the place `offset`.
    pub fn refusal(self, alloc: Global, source: &str, offset: u32) -> ParseError
        requires within { IsWithin source.now self }
        requires fits { offset + length source.now < 2 ^ 32 }
        ensures as_stated { IsRefusalOf self offset result }
    {
        match self {
            ReadError::Fault(fault, start, end) => refusal(alloc, offset, fault, start, end),
            ReadError::OutOfMemory => AllocError.into(),
        }
    }
}

/// The span of a range of a source whose first byte has the place `offset`.
pub fn span_at(offset: u32, start: usize, end: usize) -> Span
    requires order { start ≤ end }
    requires fits { offset + end < 2 ^ 32 }
    ensures start { result.start ≡ offset + start }
    ensures end { result.end ≡ offset + end }
{
    Span {
        start: offset + start as u32,
        end: offset + end as u32,
    }
}

/// The refusal for a fault at a range, or a failed allocation for its message.
fn refusal(alloc: Global, offset: u32, fault: ReadFault, start: usize, end: usize) -> ParseError
    requires order { start ≤ end }
    requires fits { offset + end < 2 ^ 32 }
    ensures { IsRefusalOf (Fault fault start end) offset result }
{
    match String::from_str(alloc, fault.message()) {
        Ok(message) => {
            let span = span_at(offset, start, end);
            ParseError::of(ParseErrorKind::Syntax { span, message }, fault.rule())
        }
        Err(e) => e.into(),
    }
}
