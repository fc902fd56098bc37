//! Reading primitive types.
ghost use Rattle.std.specs.Prelude.{◌≡◌, IfOk, IfErr};
ghost use Rattle.std.specs.Option.{is_some};
ghost use Rattle.wit_lex.specs.declared.kind.Kind.TheVariants.{Word as WordKind};
ghost use Rattle.wit_grammar.specs.Leaves.{primitive_of};
ghost use Rattle.wit_grammar.specs.Grammar.{primitives};
ghost use Rattle.wit_grammar.specs.Seen.{see_type};
ghost use Rattle.wit_reader.specs.Primitives.{is_primitive};

use crate::reader::Reader;
use wit_lex::fault::{ReadFault, ReadResult};
use wit_lex::kind::Kind;
use wit_lex::word::Word;
use wit_tree::tree::{Primitive, Type};

/// The primitive type of a word, if the word is one's.
pub fn primitive(word: Word) -> Option<Primitive>
    ensures known { is_some result ≡ is_primitive word }
    ensures exact { result ≡ primitive_of (WordKind word) }
{
    match word {
        Word::Bool => Some(Primitive::Bool),
        Word::U8 => Some(Primitive::U8),
        Word::U16 => Some(Primitive::U16),
        Word::U32 => Some(Primitive::U32),
        Word::U64 => Some(Primitive::U64),
        Word::S8 => Some(Primitive::S8),
        Word::S16 => Some(Primitive::S16),
        Word::S32 => Some(Primitive::S32),
        Word::S64 => Some(Primitive::S64),
        Word::F32 => Some(Primitive::F32),
        Word::F64 => Some(Primitive::F64),
        Word::Char => Some(Primitive::Char),
        Word::String => Some(Primitive::String),
        Word::ErrorContext => Some(Primitive::ErrorContext),
        _ => None,
    }
}

impl<'a> Reader<'a> {
    ghost use Rattle.wit_reader.specs.Reading.{Reads, Refuses};

    /// The primitive type that the token is.
    fn primitive(&self) -> Option<Primitive>
        ensures { result ≡ primitive_of self.now.token.kind }
    {
        match self.token.kind {
            Kind::Word(word) => primitive(word),
            _ => None,
        }
    }

    /// Reads the word of a primitive type.
    #[tactic(auto, unfolding(wit_grammar::specs::Leaves::primitive_at))]
    pub fn read_primitive(&mut self) -> ReadResult<Type<'a>>
        ensures reads { IfOk result (λ it. Reads primitives self.old (see_type it) self.new) }
        ensures stops { IfErr result (Refuses primitives self.old) }
    {
        match self.primitive() {
            Some(primitive) => {
                let span = self.span();
                self.bump()?;
                Ok(Type::Primitive(span, primitive))
            }
            None => Err(self.refuse(ReadFault::Token)),
        }
    }
}
