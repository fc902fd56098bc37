//! Reading handles of resources.
ghost use Rattle.std.specs.Prelude.{IfOk, IfErr};
ghost use Rattle.wit_grammar.specs.Rules.{handled, owns, borrows};
ghost use Rattle.wit_grammar.specs.Seen.{see_name, see_type};

use crate::reader::Reader;
use wit_lex::fault::ReadResult;
use wit_lex::kind::Kind;
use wit_lex::word::Word;
use wit_tree::tree::{Id, Type};

impl<'a> Reader<'a> {
    ghost use Rattle.wit_reader.specs.Reading.{Reads, Refuses};

    /// Reads a name in angles.
    #[tactic(auto, unfolding(wit_grammar::specs::Rules::handled))]
    fn read_handled(&mut self) -> ReadResult<Id<'a>>
        ensures reads { IfOk result (λ it. Reads handled self.old (see_name it) self.new) }
        ensures stops { IfErr result (Refuses handled self.old) }
    {
        self.expect(Kind::OpenAngle)?;
        let id = self.read_id()?;
        self.expect(Kind::CloseAngle)?;
        Ok(id)
    }

    /// Reads `own<name>`.
    #[tactic(auto, unfolding(wit_grammar::specs::Rules::owns))]
    pub fn read_own(&mut self) -> ReadResult<Type<'a>>
        ensures reads { IfOk result (λ it. Reads owns self.old (see_type it) self.new) }
        ensures stops { IfErr result (Refuses owns self.old) }
    {
        let span = self.read_word(Word::Own)?;
        let id = self.read_handled()?;
        Ok(Type::Own(span, id))
    }

    /// Reads `borrow<name>`.
    #[tactic(auto, unfolding(wit_grammar::specs::Rules::borrows))]
    pub fn read_borrow(&mut self) -> ReadResult<Type<'a>>
        ensures reads { IfOk result (λ it. Reads borrows self.old (see_type it) self.new) }
        ensures stops { IfErr result (Refuses borrows self.old) }
    {
        let span = self.read_word(Word::Borrow)?;
        let id = self.read_handled()?;
        Ok(Type::Borrow(span, id))
    }
}
