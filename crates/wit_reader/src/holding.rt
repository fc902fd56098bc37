//! Values that are kept while something is read after them, whatever they are: where that is refused,
//! they are dropped here, where nothing is known of them.
ghost use Rattle.std.specs.Prelude.{◌≡◌, IfOk, OnOk, IfErr};
ghost use Rattle.wit_lex.specs.Lexis.{Stops};
ghost use Rattle.wit_grammar.specs.Leaves.{mark_at};

use crate::reader::Reader;
use wit_lex::fault::ReadResult;
use wit_lex::kind::Kind;

impl<'a> Reader<'a> {
    ghost use Rattle.wit_reader.specs.Reading.{Passes, spot};

    /// Goes past a token of this kind after a value, which it gives back.
    pub fn closed<T: Drop>(&mut self, value: T, close: Kind) -> ReadResult<T>
        ensures value { IfOk result (λ it. it ≡ value) }
        ensures reads { OnOk result (Passes self.old (mark_at close (spot self.old)) self.new) }
        ensures stops { IfErr result (Stops (mark_at close (spot self.old))) }
    {
        self.expect(close)?;
        Ok(value)
    }
}
