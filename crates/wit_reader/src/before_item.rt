//! Reading the docs and attributes before an item.
ghost use Rattle.std.specs.Prelude.{map, IfOk, IfErr};
ghost use Rattle.wit_grammar.specs.Seen.{see_attribute, see_docs, see_prefix};
ghost use Rattle.wit_grammar.specs.Grammar.{docs};
ghost use Rattle.wit_grammar.specs.Rules.{attributes, prefix};

use crate::reader::Reader;
use crate::room::add;
use wit_lex::docs::docs_after;
use wit_lex::fault::ReadResult;
use wit_lex::kind::Kind;
use wit_tree::tree::{Attribute, Docs};

/// The docs and attributes before an item.
#[derive(Drop)]
pub struct Prefix<'a> {
    pub docs: Docs<'a>,
    pub attributes: Vec<Attribute<'a>>,
}

impl<'a> Reader<'a> {
    ghost use Rattle.wit_reader.specs.Reading.{ReadsOn, Refuses};

    /// Reads the docs before the token; what is before it is then read.
    pub fn read_docs(&mut self) -> ReadResult<Docs<'a>>
        ensures reads { IfOk result (λ it. ReadsOn docs self.old (see_docs it) self.new) }
        ensures stops { IfErr result (Refuses docs self.old) }
    {
        let (docs, _) = docs_after(self.alloc, self.source, self.offset, self.before)?;
        self.before = self.token.start;
        Ok(docs)
    }

    /// Reads attributes.
    pub fn read_attributes(&mut self) -> ReadResult<Vec<Attribute<'a>>>
        ensures reads { IfOk result (λ it. ReadsOn attributes self.old (map see_attribute it.items) self.new) }
        ensures stops { IfErr result (Refuses attributes self.old) }
    {
        let mut attributes = Vec::new(self.alloc);
        'attributes: while self.at(Kind::At) {
            let attribute = self.read_attribute()?;
            add(&mut attributes, attribute, !self.at(Kind::At))?;
        }
        Ok(attributes)
    }

    /// Reads docs, and attributes after them.
    #[tactic(auto, unfolding(wit_grammar::specs::Rules::prefix))]
    pub fn read_prefix(&mut self) -> ReadResult<Prefix<'a>>
        ensures reads { IfOk result (λ it. ReadsOn prefix self.old (see_prefix it.docs it.attributes.items) self.new) }
        ensures stops { IfErr result (Refuses prefix self.old) }
    {
        let docs = self.read_docs()?;
        let attributes = self.read_attributes()?;
        Ok(Prefix { docs, attributes })
    }
}
