//! Kinds of tokens.
ghost use Rattle.std.specs.Prelude.{◌≡◌, ◌<◌, false, IfNone, IfSome};
ghost use Rattle.wit_lex.specs.Starts.{is_sign};
ghost use Rattle.wit_lex.specs.Tokens.{IsKindOf, IsSign, IsWritten};

use crate::scan::is_letter;
use crate::word::{Word, word_of};

/// What a token is.
#[derive(Clone, Copy, Debug, PartialEq, Eq)]
pub enum Kind {
    /// A word of the grammar.
    Word(Word),
    /// A name, perhaps with a `%` in front.
    Name,
    /// Decimal digits.
    Number,
    /// `->`
    Arrow,
    Equals,
    Comma,
    Colon,
    Semicolon,
    OpenParen,
    CloseParen,
    OpenBrace,
    CloseBrace,
    OpenAngle,
    CloseAngle,
    Dot,
    Slash,
    At,
    Underscore,
    /// Nothing: the text ends here.
    End,
}

/// The token that a character is by itself.
#[inline(always)]
pub fn sign(c: u8) -> Option<Kind>
    ensures ascii { IfSome result (λ _. c < 128) }
    ensures kind { IfSome result (IsSign c) }
    ensures none { IfNone result (is_sign c ≡ false) }
{
    match c {
        b'=' => Some(Kind::Equals),
        b',' => Some(Kind::Comma),
        b':' => Some(Kind::Colon),
        b';' => Some(Kind::Semicolon),
        b'(' => Some(Kind::OpenParen),
        b')' => Some(Kind::CloseParen),
        b'{' => Some(Kind::OpenBrace),
        b'}' => Some(Kind::CloseBrace),
        b'<' => Some(Kind::OpenAngle),
        b'>' => Some(Kind::CloseAngle),
        b'.' => Some(Kind::Dot),
        b'/' => Some(Kind::Slash),
        b'@' => Some(Kind::At),
        b'_' => Some(Kind::Underscore),
        _ => None,
    }
}

/// What the token is that begins with a byte and has a text.
pub fn kind_of(first: u8, text: &str) -> Kind
    ensures kind { IsKindOf first text.now result }
    ensures written { IsWritten result text.now }
{
    if is_letter(first) {
        return match word_of(text) {
            Some(word) => Kind::Word(word),
            None => Kind::Name,
        };
    }
    match first {
        b'%' => Kind::Name,
        b'-' => Kind::Arrow,
        _ => match sign(first) {
            Some(kind) => kind,
            None => Kind::Number,
        },
    }
}
