//! Reading attributes.
ghost use Rattle.std.specs.Prelude.{◌≡◌, IfOk, IfErr};
ghost use Rattle.wit_grammar.specs.Seen.{see_attribute, see_name};
ghost use Rattle.wit_grammar.specs.Grammar.{applied};
ghost use Rattle.wit_grammar.specs.Rules.{after_at, attribute, deprecated_attribute, deprecated_of, joined as joined_span, of_feature, since_attribute, since_of, since_version, unstable_attribute, unstable_of};
ghost use Rattle.wit_reader.specs.FoundVersions.{see_found};

use crate::reader::Reader;
use semver::Version;
use wit_lex::fault::ReadResult;
use wit_lex::kind::Kind;
use wit_tree::Span;
use wit_tree::tree::{Attribute, Id};

/// From the first span to the end of the last.
fn joined(first: Span, last: Span) -> Span
    ensures { result ≡ joined_span first last }
{
    Span {
        start: first.start,
        end: last.end,
    }
}

impl<'a> Reader<'a> {
    ghost use Rattle.wit_reader.specs.Reading.{Reads, ReadsAs, Refuses};

    /// Reads `(version = V)`, and says where the version and the `)` are.
    #[tactic(auto, unfolding(wit_grammar::specs::Rules::since_version))]
    fn read_stated_version(&mut self) -> ReadResult<((Span, Version), Span)>
        ensures reads { IfOk result (λ it. Reads since_version self.old (see_found it.0, it.1) self.new) }
        ensures stops { IfErr result (Refuses since_version self.old) }
    {
        self.expect(Kind::OpenParen)?;
        self.expect_text("version")?;
        self.expect(Kind::Equals)?;
        let version = self.read_version()?;
        let close = self.read_mark(Kind::CloseParen)?;
        Ok((version, close))
    }

    /// Reads `(feature = name)`, and says where the `)` is.
    #[tactic(auto, unfolding(wit_grammar::specs::Rules::of_feature))]
    fn read_stated_feature(&mut self) -> ReadResult<(Id<'a>, Span)>
        ensures reads { IfOk result (λ it. Reads of_feature self.old (see_name it.0, it.1) self.new) }
        ensures stops { IfErr result (Refuses of_feature self.old) }
    {
        self.expect(Kind::OpenParen)?;
        self.expect_text("feature")?;
        self.expect(Kind::Equals)?;
        let feature = self.read_id()?;
        let close = self.read_mark(Kind::CloseParen)?;
        Ok((feature, close))
    }

    /// Reads `since(version = V)`, after the `@` at a span.
    #[tactic(auto, unfolding(wit_grammar::specs::Rules::since_attribute))]
    fn read_since(&mut self, at: Span) -> ReadResult<Attribute<'a>>
        ensures reads { IfOk result (λ it. ReadsAs since_attribute (since_of at) self.old (see_attribute it) self.new) }
        ensures stops { IfErr result (Refuses since_attribute self.old) }
    {
        self.expect_text("since")?;
        let ((_, version), close) = self.read_stated_version()?;
        Ok(Attribute::Since {
            span: joined(at, close),
            version,
        })
    }

    /// Reads `deprecated(version = V)`, after the `@` at a span.
    #[tactic(auto, unfolding(wit_grammar::specs::Rules::deprecated_attribute))]
    fn read_deprecated(&mut self, at: Span) -> ReadResult<Attribute<'a>>
        ensures reads { IfOk result (λ it. ReadsAs deprecated_attribute (deprecated_of at) self.old (see_attribute it) self.new) }
        ensures stops { IfErr result (Refuses deprecated_attribute self.old) }
    {
        self.expect_text("deprecated")?;
        let ((_, version), close) = self.read_stated_version()?;
        Ok(Attribute::Deprecated {
            span: joined(at, close),
            version,
        })
    }

    /// Reads `unstable(feature = name)`, after the `@` at a span.
    #[tactic(auto, unfolding(wit_grammar::specs::Rules::unstable_attribute))]
    fn read_unstable(&mut self, at: Span) -> ReadResult<Attribute<'a>>
        ensures reads { IfOk result (λ it. ReadsAs unstable_attribute (unstable_of at) self.old (see_attribute it) self.new) }
        ensures stops { IfErr result (Refuses unstable_attribute self.old) }
    {
        self.expect_text("unstable")?;
        let (feature, close) = self.read_stated_feature()?;
        Ok(Attribute::Unstable {
            span: joined(at, close),
            feature,
        })
    }

    /// Reads what follows the `@` of an attribute, which is at a span.
    #[tactic(auto, unfolding(wit_grammar::specs::Rules::after_at))]
    fn read_after_at(&mut self, at: Span) -> ReadResult<Attribute<'a>>
        ensures reads { IfOk result (λ it. ReadsAs after_at (applied at) self.old (see_attribute it) self.new) }
        ensures stops { IfErr result (Refuses after_at self.old) }
    {
        if self.at_text("since") {
            return self.read_since(at);
        }
        if self.at_text("unstable") {
            return self.read_unstable(at);
        }
        self.read_deprecated(at)
    }

    /// Reads an attribute.
    #[tactic(auto, unfolding(wit_grammar::specs::Rules::attribute))]
    pub fn read_attribute(&mut self) -> ReadResult<Attribute<'a>>
        ensures reads { IfOk result (λ it. Reads attribute self.old (see_attribute it) self.new) }
        ensures stops { IfErr result (Refuses attribute self.old) }
    {
        let at = self.read_mark(Kind::At)?;
        let attribute = self.read_after_at(at)?;
        Ok(attribute)
    }
}
