//! Refusals.
ghost use Rattle.std.specs.Prelude.{◌≡◌, Some};
ghost use Rattle.wit_type_tree.specs.RefusalText.{IsAllocationFailure, kind_text, span_of};

use std::alloc::{AllocError, AllocFailed};
use std::error::Error;
use std::fmt;
use wit_values::Span;

/// What a refusal says.
#[derive(Debug, Drop)]
pub enum ParseErrorKind {
    /// A text or a rule of the language is broken at `span`; `message` says how.
    Syntax {
        span: Span,
        message: String,
    },
    /// Nothing of the sort `kind` has the name `name`, which is written at `span`.
    ItemNotFound {
        span: Span,
        name: String,
        kind: String,
        hint: Option<String>,
    },
    /// What `name`, written at `span`, means depends on itself. It is of the sort `kind`.
    TypeCycle {
        span: Span,
        name: String,
        kind: String,
    },
    /// A growth was refused.
    OutOfMemory,
}

/// Why something was refused: the number of the rule, and what it says.
#[derive(Debug)]
pub struct ParseError {
    kind: ParseErrorKind,
    rule: u8,
}

impl Drop for ParseError {
    fn drop(self) {
        let ParseError { kind: _, rule: _ } = self;
    }
}

/// A value, or why there is none.
pub type ParseResult<T> = Result<T, ParseError>;

/// The number of a refusal for a failed allocation.
pub const OUT_OF_MEMORY: u8 = 45;

impl ParseError {
    ghost use Rattle.std.specs.Borrow.{sem, Lends};
    ghost use Rattle.wit_type_tree.specs.contracts.error.ParseError.{the_row};
    ghost use Rattle.wit_type_tree.specs.contracts.error.ParseErrorKind.{the_row as kind_row};

    /// A refusal of this kind under the rule of this number.
    pub fn of(kind: ParseErrorKind, rule: u8) -> Self
        ensures kind { result.kind ≡ kind }
        ensures rule { result.rule ≡ rule }
    {
        ParseError { kind, rule }
    }

    /// A broken rule without a number yet.
    pub fn new_syntax(span: Span, message: String) -> Self
        ensures kind { result.kind ≡ ParseErrorKind.Syntax span message }
        ensures rule { result.rule ≡ 0 }
    {
        ParseError {
            kind: ParseErrorKind::Syntax { span, message },
            rule: 0,
        }
    }

    /// The same refusal under the rule of this number.
    pub fn with_rule(self, rule: u8) -> Self
        ensures kind { result.kind ≡ self.kind }
        ensures rule { result.rule ≡ rule }
    {
        let ParseError { kind, rule: _ } = self;
        ParseError { kind, rule }
    }

    /// What it says.
    pub fn kind(&self) -> &ParseErrorKind
        ensures { result.now ≡ self.now.kind }
    {
        &self.kind
    }

    /// The number of the rule that is broken; 0 where none was given yet.
    pub fn rule(&self) -> u8
        ensures { result ≡ self.now.rule }
    {
        self.rule
    }

    /// What it says, to be written.
    pub fn kind_mut(&mut self) -> &mut ParseErrorKind
        ensures* writes_back { sem 𝓛 (Lends the_row kind_row self.entry result (λ k. record { kind = k; rule = self.old.rule })) }
        ensures value { result.now ≡ self.old.kind }
    {
        &mut self.kind
    }

    /// Where it is; (0, 0) if an allocation failed.
    pub fn span(&self) -> Span
        ensures { result ≡ span_of self.now.kind }
    {
        match &self.kind {
            ParseErrorKind::Syntax { span, .. } => *span,
            ParseErrorKind::ItemNotFound { span, .. } => *span,
            ParseErrorKind::TypeCycle { span, .. } => *span,
            ParseErrorKind::OutOfMemory => Span::default(),
        }
    }
}

impl fmt::Display for ParseError {
    ghost output = { λ e. Some (kind_text e.kind) };

    fn fmt<W: fmt::Write>(&self, f: &mut fmt::Formatter<W>) -> fmt::Result {
        match &self.kind {
            ParseErrorKind::Syntax { message, .. } => f.write_str(message.as_str()),
            ParseErrorKind::ItemNotFound {
                name,
                kind,
                hint,
                ..
            } => {
                write!(f, "{kind} `{name}` does not exist")?;
                if let Some(hint) = hint {
                    write!(f, "; {hint}")?;
                }
                Ok(())
            }
            ParseErrorKind::TypeCycle { name, kind, .. } => {
                write!(f, "{kind} `{name}` depends on itself")?;
                Ok(())
            }
            ParseErrorKind::OutOfMemory => f.write_str("out of memory"),
        }
    }
}

impl Error for ParseError {}

impl From<AllocError> for ParseError {
    ghost from_gives = { λ _ e. IsAllocationFailure e };

    fn from(_e: AllocError) -> ParseError {
        ParseError::of(ParseErrorKind::OutOfMemory, OUT_OF_MEMORY)
    }
}

impl<T: Drop> From<AllocFailed<T>> for ParseError {
    ghost from_gives = { λ _ e. IsAllocationFailure e };

    fn from(_e: AllocFailed<T>) -> ParseError {
        ParseError::of(ParseErrorKind::OutOfMemory, OUT_OF_MEMORY)
    }
}
