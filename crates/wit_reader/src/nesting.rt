//! What is refused where no further level of types is read.
ghost use Rattle.std.specs.Prelude.{◌≡◌};
ghost use Rattle.wit_reader.specs.Deeper.{word_begins_type, kind_begins_type, deeper_fault};

use crate::primitive::primitive;
use crate::reader::Reader;
use wit_lex::fault::{ReadError, ReadFault};
use wit_lex::kind::Kind;
use wit_lex::word::Word;

/// Whether a word begins a type.
fn begins_type(word: Word) -> bool
    ensures { result ≡ word_begins_type word }
{
    match word {
        Word::List
        | Word::Map
        | Word::Option
        | Word::Result
        | Word::Tuple
        | Word::Future
        | Word::Stream
        | Word::Own
        | Word::Borrow => true,
        _ => primitive(word).is_some(),
    }
}

impl<'a> Reader<'a> {
    /// Whether a type begins with the token.
    fn begins_type(&self) -> bool
        ensures { result ≡ kind_begins_type self.now.token.kind }
    {
        match self.token.kind {
            Kind::Name => true,
            Kind::Word(word) => begins_type(word),
            _ => false,
        }
    }

    /// The refusal of the token where no further level of types is read.
    pub fn refuse_deeper(&self) -> ReadError
        ensures { result ≡ deeper_fault self.now.token }
    {
        if self.begins_type() {
            self.refuse(ReadFault::Nesting)
        } else {
            self.refuse(ReadFault::Token)
        }
    }
}
