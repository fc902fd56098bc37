//! Reading versions.
ghost use Rattle.std.specs.Prelude.{◌≡◌, ◌<◌, ◌≤◌, ◌-◌, length, slice_index, Err, IfOk, IfErr};
ghost use Rattle.std.specs.Option.{option_map};
ghost use Rattle.wit_grammar.specs.Leaves.{version_at};
ghost use Rattle.wit_grammar.specs.Grammar.{version};
ghost use Rattle.wit_grammar.specs.Rules.{at_version};
ghost use Rattle.wit_reader.specs.FoundVersions.{see_found};
ghost use Rattle.wit_reader.specs.Versions.{broken_off, version_between};

use crate::reader::Reader;
use semver::Version;
use wit_lex::fault::{ReadError, ReadFault, ReadResult, span_at};
use wit_lex::kind::Kind;
use wit_lex::scan::cut;
use wit_lex::token::next_token;
use wit_lex::version::parse_version;
use wit_lex::version_end::version_end;
use wit_tree::Span;

/// The fault of the first token from a place on.
fn refuse_from(source: &str, from: usize) -> ReadError
    requires within { from ≤ length source.now }
    ensures { broken_off source.now from ≡ Err result }
{
    match next_token(source, from) {
        Ok(token) => ReadError::Fault(ReadFault::Token, token.start, token.end),
        Err(e) => e,
    }
}

impl<'a> Reader<'a> {
    ghost use Rattle.wit_reader.specs.Reading.{Reads, ReadsOn, Refuses, spot};

    /// The end of the version whose first number is the token.
    #[tactic(auto, unfolding(wit_grammar::specs::Leaves::version_at))]
    fn find_version_end(&self) -> ReadResult<usize>
        ensures first { IfOk result (λ end. slice_index self.now.source.now self.now.token.start < 128) }
        ensures last { IfOk result (λ end. slice_index self.now.source.now (end - 1) < 128) }
        ensures range { IfOk result (λ end. (self.now.token.start < end) × (self.now.token.end ≤ end) × (end ≤ length self.now.source.now)) }
        ensures ends { IfOk result (λ end. version_at (spot self.now) ≡ version_between (spot self.now) self.now.token.start end) }
        ensures stops { IfErr result (λ e. version_at (spot self.now) ≡ Err e) }
    {
        if !self.at(Kind::Number) {
            return Err(self.refuse(ReadFault::Token));
        }
        match version_end(self.source.as_bytes(), self.token.end) {
            Ok(end) => Ok(end),
            Err(at) => Err(refuse_from(self.source, at)),
        }
    }

    /// Reads `@` and a version, where there is one, and says where it is.
    #[tactic(auto, unfolding(wit_grammar::specs::Rules::at_version, wit_grammar::specs::Leaves::mark_at))]
    pub fn read_at_version(&mut self) -> ReadResult<Option<(Span, Version)>>
        ensures reads { IfOk result (λ it. ReadsOn at_version self.old (option_map see_found it) self.new) }
        ensures stops { IfErr result (Refuses at_version self.old) }
    {
        if !self.at(Kind::At) {
            return Ok(None);
        }
        self.bump()?;
        let found = self.read_version()?;
        Ok(Some(found))
    }

    /// Reads a version, and says where it is.
    pub fn read_version(&mut self) -> ReadResult<(Span, Version)>
        ensures reads { IfOk result (λ it. Reads version self.old (see_found it) self.new) }
        ensures stops { IfErr result (Refuses version self.old) }
    {
        let start = self.token.start;
        let end = self.find_version_end()?;
        match parse_version(self.alloc, cut(self.source, start, end))? {
            Some(version) => {
                self.token.advance(self.source, end)?;
                self.before = end;
                Ok((span_at(self.offset, start, end), version))
            }
            None => Err(ReadError::Fault(ReadFault::Version, start, end)),
        }
    }
}
