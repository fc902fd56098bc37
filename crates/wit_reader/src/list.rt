//! Reading lists: items between two marks, with `,` between them and perhaps after the last.
ghost use Rattle.std.specs.Prelude.{IfOk, IfErr};
ghost use Rattle.wit_lex.specs.Lexis.{Stops};
ghost use Rattle.wit_grammar.specs.Grammar.{open_at, next_at};

use crate::reader::Reader;
use wit_lex::fault::ReadResult;
use wit_lex::kind::Kind;

impl<'a> Reader<'a> {
    ghost use Rattle.wit_reader.specs.Reading.{Parses, spot};

    /// Goes past the mark that opens a list, and past the one that closes it where the list is empty;
    /// says whether an item follows.
    #[tactic(auto, unfolding(wit_grammar::specs::Grammar::open_at))]
    pub fn open_list(&mut self, opening: Kind, close: Kind) -> ReadResult<bool>
        ensures reads { IfOk result (λ it. Parses self.old (open_at opening close (spot self.old)) it self.new) }
        ensures stops { IfErr result (Stops (open_at opening close (spot self.old))) }
    {
        self.expect(opening)?;
        if self.at(close) {
            self.bump()?;
            return Ok(false);
        }
        Ok(true)
    }

    /// Goes past the `,` after an item of a list, and past the mark that closes the list where no
    /// further item follows; says whether one does.
    #[tactic(auto, unfolding(wit_grammar::specs::Grammar::next_at))]
    pub fn next_in_list(&mut self, close: Kind) -> ReadResult<bool>
        ensures reads { IfOk result (λ it. Parses self.old (next_at close (spot self.old)) it self.new) }
        ensures stops { IfErr result (Stops (next_at close (spot self.old))) }
    {
        if !self.at(Kind::Comma) {
            self.expect(close)?;
            return Ok(false);
        }
        self.open_list(Kind::Comma, close)
    }
}
