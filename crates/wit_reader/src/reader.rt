//! A reader goes through the tokens of a source, one after the other.
ghost use Rattle.std.specs.Prelude.{◌≡◌, ◌+◌, ◌<◌, ◌≤◌, ◌^◌, length, Ok, IfOk, OnOk, IfErr, IsTrue, ◌↔◌};
ghost use Rattle.wit_lex.specs.declared.fault.ReadError.TheVariants.{Fault};
ghost use Rattle.wit_lex.specs.declared.kind.Kind.TheVariants.{Word as WordKind};
ghost use Rattle.wit_lex.specs.Tokens.{IsFound, IsToken};
ghost use Rattle.wit_lex.specs.Lexis.{Stops, first_token, lexeme};
ghost use Rattle.wit_grammar.specs.TokenKinds.{same_kind};
ghost use Rattle.wit_grammar.specs.Seen.{see_name};
ghost use Rattle.wit_grammar.specs.Leaves.{past, mark_at};
ghost use Rattle.wit_grammar.specs.Grammar.{matches, of_text, name, says, spanned};
ghost use Rattle.wit_grammar.specs.Rules.{label};

use std::alloc::Global;
use wit_lex::fault::{ReadError, ReadFault, ReadResult, span_at};
use wit_lex::kind::Kind;
use wit_lex::scan::without_escape;
use wit_lex::token::Token;
use wit_lex::word::Word;
use wit_tree::Span;
use wit_tree::tree::Id;

/// A source whose first byte has the place `offset`, and its first token that is not read yet, with
/// the blanks and comments before it.
///
/// What each token goes through is inlined.
#[derive(Drop)]
pub struct Reader<'a> {
    pub alloc: Global,
    pub source: &'a str,
    pub offset: u32,
    /// Where the blanks before the token begin.
    pub before: usize,
    pub token: Token<'a>,
    pub ghost prefix: { before ≤ token.start },
    pub ghost fits: { offset + length source.now < 2 ^ 32 },
    pub ghost within: { IsToken source.now token },
    pub ghost found: { ∥ IsFound source.now token.start token.end token.text.now token.kind ∥₁ },
    pub ghost next: { first_token source.now before ≡ Ok (lexeme token) },
}

impl<'a> Reader<'a> {
    ghost use Rattle.wit_reader.specs.Reading.{Passes, Reads, Refuses, spot, token_span};

    /// The token's span.
    pub fn span(&self) -> Span
        ensures { result ≡ token_span self.now }
    {
        span_at(self.offset, self.token.start, self.token.end)
    }

    /// The fault of the token.
    pub fn refuse(&self, fault: ReadFault) -> ReadError
        ensures { result ≡ Fault fault self.now.token.start self.now.token.end }
    {
        ReadError::Fault(fault, self.token.start, self.token.end)
    }

    /// Whether the token is of this kind.
    pub fn at(&self, kind: Kind) -> bool
        ensures kind { IsTrue result ↔ (self.now.token.kind ≡ kind) }
        ensures same { result ≡ same_kind self.now.token.kind kind }
    {
        self.token.kind == kind
    }

    /// Whether the token is this word of the grammar.
    pub fn at_word(&self, word: Word) -> bool
        ensures known { IsTrue result ↔ (self.now.token.kind ≡ WordKind word) }
        ensures same { result ≡ same_kind self.now.token.kind (WordKind word) }
    {
        match self.token.kind {
            Kind::Word(found) => found == word,
            _ => false,
        }
    }

    /// Whether the token is a name of this text.
    pub fn at_text(&self, text: &str) -> bool
        ensures { result ≡ matches (of_text text.now) (spot self.now) (lexeme self.now.token) }
    {
        self.at(Kind::Name) && self.token.text == text
    }

    /// Goes past the token.
    #[inline(always)]
    pub fn bump(&mut self) -> ReadResult<()>
        ensures reads { OnOk result (Passes self.old (past (spot self.old) (lexeme self.old.token)) self.new) }
        ensures stops { IfErr result (Stops (past (spot self.old) (lexeme self.old.token))) }
    {
        if self.token.start == self.token.end {
            return Err(self.refuse(ReadFault::Token));
        }
        let end = self.token.end;
        self.token.advance(self.source, end)?;
        self.before = end;
        Ok(())
    }

    /// Goes past a token of this kind.
    #[inline(always)]
    #[tactic(auto, unfolding(wit_grammar::specs::Leaves::mark_at))]
    pub fn expect(&mut self, kind: Kind) -> ReadResult<()>
        ensures reads { OnOk result (Passes self.old (mark_at kind (spot self.old)) self.new) }
        ensures stops { IfErr result (Stops (mark_at kind (spot self.old))) }
    {
        if !self.at(kind) {
            return Err(self.refuse(ReadFault::Token));
        }
        self.bump()
    }

    /// Goes past a word of the grammar.
    #[inline(always)]
    #[tactic(auto, unfolding(wit_grammar::specs::Leaves::mark_at))]
    pub fn expect_word(&mut self, word: Word) -> ReadResult<()>
        ensures reads { OnOk result (Passes self.old (mark_at (WordKind word) (spot self.old)) self.new) }
        ensures stops { IfErr result (Stops (mark_at (WordKind word) (spot self.old))) }
    {
        if !self.at_word(word) {
            return Err(self.refuse(ReadFault::Token));
        }
        self.bump()
    }

    /// Goes past a word of the grammar, and says where it is.
    #[inline(always)]
    #[tactic(auto, unfolding(wit_grammar::specs::Leaves::spanned_at))]
    pub fn read_word(&mut self, word: Word) -> ReadResult<Span>
        ensures reads { IfOk result (λ it. Reads (spanned (WordKind word)) self.old it self.new) }
        ensures stops { IfErr result (Refuses (spanned (WordKind word)) self.old) }
    {
        let span = self.span();
        self.expect_word(word)?;
        Ok(span)
    }

    /// Goes past a token of this kind, and says where it is.
    #[tactic(auto, unfolding(wit_grammar::specs::Leaves::spanned_at, wit_grammar::specs::Leaves::mark_at))]
    pub fn read_mark(&mut self, kind: Kind) -> ReadResult<Span>
        ensures reads { IfOk result (λ it. Reads (spanned kind) self.old it self.new) }
        ensures stops { IfErr result (Refuses (spanned kind) self.old) }
    {
        if !self.at(kind) {
            return Err(self.refuse(ReadFault::Token));
        }
        let span = self.span();
        self.bump()?;
        Ok(span)
    }

    /// Goes past a name of this text, and says where it is.
    #[tactic(auto, unfolding(wit_grammar::specs::Leaves::text_at))]
    pub fn read_text(&mut self, text: &str) -> ReadResult<Span>
        ensures reads { IfOk result (λ it. Reads (says text.now) self.old it self.new) }
        ensures stops { IfErr result (Refuses (says text.now) self.old) }
    {
        if !self.at_text(text) {
            return Err(self.refuse(ReadFault::Token));
        }
        let span = self.span();
        self.bump()?;
        Ok(span)
    }

    /// Goes past a name of this text.
    pub fn expect_text(&mut self, text: &str) -> ReadResult<()>
        ensures reads { OnOk result (Reads (says text.now) self.old (token_span self.old) self.new) }
        ensures stops { IfErr result (Refuses (says text.now) self.old) }
    {
        self.read_text(text)?;
        Ok(())
    }

    /// Reads a name.
    #[inline(always)]
    #[tactic(auto, unfolding(wit_grammar::specs::Leaves::name_at))]
    pub fn read_id(&mut self) -> ReadResult<Id<'a>>
        ensures reads { IfOk result (λ it. Reads name self.old (see_name it) self.new) }
        ensures stops { IfErr result (Refuses name self.old) }
    {
        if !self.at(Kind::Name) {
            return Err(self.refuse(ReadFault::Token));
        }
        match Id::new(without_escape(self.token.text), self.span()) {
            Some(id) => {
                self.bump()?;
                Ok(id)
            }
            None => Err(self.refuse(ReadFault::Token)),
        }
    }

    /// Reads a name and the `:` after it.
    #[tactic(auto, unfolding(wit_grammar::specs::Rules::label))]
    pub fn read_label(&mut self) -> ReadResult<Id<'a>>
        ensures reads { IfOk result (λ it. Reads label self.old (see_name it) self.new) }
        ensures stops { IfErr result (Refuses label self.old) }
    {
        let id = self.read_id()?;
        self.expect(Kind::Colon)?;
        Ok(id)
    }
}
