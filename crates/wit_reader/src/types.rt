//! Reading types.
ghost use Rattle.std.specs.Prelude.{◌≡◌, map, IfOk, IfErr};
ghost use Rattle.wit_lex.specs.declared.kind.Kind.TheVariants.{OpenAngle, CloseAngle};
ghost use Rattle.wit_grammar.specs.Trees.{this};
ghost use Rattle.wit_grammar.specs.Seen.{see_type, see_boxed};
ghost use Rattle.wit_grammar.specs.Grammar.{number, listed, ◌◂◌};
ghost use Rattle.wit_grammar.specs.Rules.{sized, size, types, lists, maps_of, options, results, result_types, error_type, tuples, payload, futures, streams};
ghost use Rattle.wit_reader.specs.ResultTypes.{see_result_types};

use crate::reader::Reader;
use wit_lex::fault::{ReadFault, ReadResult};
use wit_lex::kind::Kind;
use wit_lex::word::Word;
use wit_tree::Span;
use wit_tree::tree::{ResultTypes, Type};
use wit_values::{pair_with, push};

/// How many levels of types are read.
pub const MOST_NESTED: u8 = 100;

/// The list of these items, of a fixed length where one was found.
fn list<'a>(span: Span, item: Box<Type<'a>>, size: Option<u32>) -> Type<'a>
    ensures { see_type result ≡ sized span (see_type item.entry.value) size }
{
    match size {
        Some(size) => Type::FixedLengthList(span, item, size),
        None => Type::List(span, item),
    }
}

/// The types of a result: that of its value, and that of its error, where there is one.
fn ok_and<'a>(ok: Box<Type<'a>>, err: Option<Box<Type<'a>>>) -> ResultTypes<'a>
    ensures { see_result_types result ≡ (this (see_type ok.entry.value), see_boxed err.entry) }
{
    match err {
        Some(err) => ResultTypes::Both(ok, err),
        None => ResultTypes::Ok(ok),
    }
}

impl<'a> Reader<'a> {
    ghost use Rattle.wit_reader.specs.Reading.{Reads, ReadsOn, Refuses};

    /// Reads a number of 32 bits.
    #[tactic(auto, unfolding(wit_grammar::specs::Leaves::number_at))]
    fn read_number(&mut self) -> ReadResult<u32>
        ensures reads { IfOk result (λ it. Reads number self.old it self.new) }
        ensures stops { IfErr result (Refuses number self.old) }
    {
        if !self.at(Kind::Number) {
            return Err(self.refuse(ReadFault::Token));
        }
        match self.token.text.parse::<u32>() {
            Ok(number) => {
                self.bump()?;
                Ok(number)
            }
            Err(_) => Err(self.refuse(ReadFault::Number)),
        }
    }

    /// Reads `>`, perhaps with `,` and a number before it.
    #[tactic(auto, unfolding(wit_grammar::specs::Rules::size, wit_grammar::specs::Leaves::mark_at))]
    fn read_size(&mut self) -> ReadResult<Option<u32>>
        ensures reads { IfOk result (λ it. Reads size self.old it self.new) }
        ensures stops { IfErr result (Refuses size self.old) }
    {
        if !self.at(Kind::Comma) {
            self.expect(Kind::CloseAngle)?;
            return Ok(None);
        }
        self.bump()?;
        let size = self.read_number()?;
        self.expect(Kind::CloseAngle)?;
        Ok(Some(size))
    }

    /// Reads a type and the token of a kind after it.
    pub fn read_closed_type(&mut self, close: Kind) -> ReadResult<Type<'a>>
        ensures reads { IfOk result (λ it. Reads (types 100 ◂ close) self.old (see_type it) self.new) }
        ensures stops { IfErr result (Refuses (types 100 ◂ close) self.old) }
    {
        let ty = self.read_type(MOST_NESTED)?;
        let closed = self.closed(ty, close)?;
        Ok(closed)
    }

    /// Reads a type of at most `left` levels.
    #[cycle(types)]
    pub fn read_type(&mut self, left: u8) -> ReadResult<Type<'a>>
        ensures reads { IfOk result (λ it. Reads (types left) self.old (see_type it) self.new) }
        ensures stops { IfErr result (Refuses (types left) self.old) }
    {
        if left == 0 {
            return Err(self.refuse_deeper());
        }
        match self.token.kind {
            Kind::Word(word) => match word {
                Word::List => self.read_list(left - 1),
                Word::Map => self.read_map(left - 1),
                Word::Option => self.read_option(left - 1),
                Word::Result => self.read_result(left - 1),
                Word::Tuple => self.read_tuple(left - 1),
                Word::Future => self.read_future(left - 1),
                Word::Stream => self.read_stream(left - 1),
                Word::Own => self.read_own(),
                Word::Borrow => self.read_borrow(),
                _ => self.read_primitive(),
            },
            Kind::Name => {
                let id = self.read_id()?;
                Ok(Type::Name(id))
            }
            _ => self.read_primitive(),
        }
    }

    /// Reads `list<type>`, perhaps with a number of items.
    #[cycle(types)]
    #[tactic(auto, unfolding(wit_grammar::specs::Rules::lists))]
    fn read_list(&mut self, left: u8) -> ReadResult<Type<'a>>
        ensures reads { IfOk result (λ it. Reads (lists (types left)) self.old (see_type it) self.new) }
        ensures stops { IfErr result (Refuses (lists (types left)) self.old) }
    {
        let span = self.read_word(Word::List)?;
        self.expect(Kind::OpenAngle)?;
        let ty = self.read_type(left)?;
        let (item, size) = pair_with(ty, self.read_size())?;
        let boxed = Box::new(self.alloc, item)?;
        Ok(list(span, boxed, size))
    }

    /// Reads `map<type, type>`.
    #[cycle(types)]
    #[tactic(auto, unfolding(wit_grammar::specs::Rules::maps_of))]
    fn read_map(&mut self, left: u8) -> ReadResult<Type<'a>>
        ensures reads { IfOk result (λ it. Reads (maps_of (types left)) self.old (see_type it) self.new) }
        ensures stops { IfErr result (Refuses (maps_of (types left)) self.old) }
    {
        let span = self.read_word(Word::Map)?;
        self.expect(Kind::OpenAngle)?;
        let first = self.read_boxed_before(left, Kind::Comma)?;
        let (key, value) = pair_with(first, self.read_boxed_before(left, Kind::CloseAngle))?;
        Ok(Type::Map(span, key, value))
    }

    /// Reads `option<type>`.
    #[cycle(types)]
    #[tactic(auto, unfolding(wit_grammar::specs::Rules::options))]
    fn read_option(&mut self, left: u8) -> ReadResult<Type<'a>>
        ensures reads { IfOk result (λ it. Reads (options (types left)) self.old (see_type it) self.new) }
        ensures stops { IfErr result (Refuses (options (types left)) self.old) }
    {
        let span = self.read_word(Word::Option)?;
        self.expect(Kind::OpenAngle)?;
        let value = self.read_boxed_before(left, Kind::CloseAngle)?;
        Ok(Type::Option(span, value))
    }

    /// Reads `result`, perhaps with the types of the value and of the error in angles.
    #[cycle(types)]
    #[tactic(auto, using(crate::proofs::Seen::seen_result), unfolding(wit_grammar::specs::Rules::results, wit_grammar::specs::Leaves::mark_at))]
    fn read_result(&mut self, left: u8) -> ReadResult<Type<'a>>
        ensures reads { IfOk result (λ it. Reads (results (types left)) self.old (see_type it) self.new) }
        ensures stops { IfErr result (Refuses (results (types left)) self.old) }
    {
        let span = self.read_word(Word::Result)?;
        if !self.at(Kind::OpenAngle) {
            return Ok(Type::Result(span, ResultTypes::Neither));
        }
        self.bump()?;
        let types = self.read_result_types(left)?;
        Ok(Type::Result(span, types))
    }

    /// Reads `_, type>`, or a type and `>`, perhaps with `,` and the type of the error between them.
    #[cycle(types)]
    #[tactic(auto, unfolding(wit_grammar::specs::Rules::result_types, wit_grammar::specs::Leaves::mark_at))]
    fn read_result_types(&mut self, left: u8) -> ReadResult<ResultTypes<'a>>
        ensures reads { IfOk result (λ it. Reads (result_types (types left)) self.old (see_result_types it) self.new) }
        ensures stops { IfErr result (Refuses (result_types (types left)) self.old) }
    {
        if self.at(Kind::Underscore) {
            self.bump()?;
            self.expect(Kind::Comma)?;
            let err = self.read_boxed_before(left, Kind::CloseAngle)?;
            return Ok(ResultTypes::Err(err));
        }
        let first = self.read_boxed(left)?;
        let (ok, err) = pair_with(first, self.read_error_type(left))?;
        Ok(ok_and(ok, err))
    }

    /// Reads `>`, perhaps with `,` and the type of the error of a result before it.
    #[cycle(types)]
    #[tactic(auto, unfolding(wit_grammar::specs::Rules::error_type, wit_grammar::specs::Leaves::mark_at))]
    fn read_error_type(&mut self, left: u8) -> ReadResult<Option<Box<Type<'a>>>>
        ensures reads { IfOk result (λ it. Reads (error_type (types left)) self.old (see_boxed it) self.new) }
        ensures stops { IfErr result (Refuses (error_type (types left)) self.old) }
    {
        if self.at(Kind::CloseAngle) {
            self.bump()?;
            return Ok(None);
        }
        self.expect(Kind::Comma)?;
        let err = self.read_boxed_before(left, Kind::CloseAngle)?;
        Ok(Some(err))
    }

    /// Reads `tuple<type, ..>`.
    #[cycle(types)]
    #[tactic(auto, using(crate::proofs::Seen::seen_tuple), unfolding(wit_grammar::specs::Rules::tuples))]
    fn read_tuple(&mut self, left: u8) -> ReadResult<Type<'a>>
        ensures reads { IfOk result (λ it. Reads (tuples (types left)) self.old (see_type it) self.new) }
        ensures stops { IfErr result (Refuses (tuples (types left)) self.old) }
    {
        let span = self.read_word(Word::Tuple)?;
        let types = self.read_types(left)?;
        Ok(Type::Tuple(span, types))
    }

    /// Reads types in angles.
    #[cycle(types)]
    #[tactic(auto, unfolding(wit_grammar::specs::Grammar::listed_at))]
    fn read_types(&mut self, left: u8) -> ReadResult<Vec<Type<'a>>>
        ensures reads { IfOk result (λ it. Reads (listed OpenAngle CloseAngle (types left)) self.old (map see_type it.items) self.new) }
        ensures stops { IfErr result (Refuses (listed OpenAngle CloseAngle (types left)) self.old) }
    {
        let mut more = self.open_list(Kind::OpenAngle, Kind::CloseAngle)?;
        let mut types = Vec::new(self.alloc);
        'types: while more {
            let ty = self.read_type(left)?;
            push(&mut types, ty)?;
            more = self.next_in_list(Kind::CloseAngle)?;
        }
        Ok(types)
    }

    /// Reads `future`, perhaps with the type of its value.
    #[cycle(types)]
    #[tactic(auto, unfolding(wit_grammar::specs::Rules::futures))]
    fn read_future(&mut self, left: u8) -> ReadResult<Type<'a>>
        ensures reads { IfOk result (λ it. Reads (futures (types left)) self.old (see_type it) self.new) }
        ensures stops { IfErr result (Refuses (futures (types left)) self.old) }
    {
        let span = self.read_word(Word::Future)?;
        let value = self.read_payload(left)?;
        Ok(Type::Future(span, value))
    }

    /// Reads `stream`, perhaps with the type of its items.
    #[cycle(types)]
    #[tactic(auto, unfolding(wit_grammar::specs::Rules::streams))]
    fn read_stream(&mut self, left: u8) -> ReadResult<Type<'a>>
        ensures reads { IfOk result (λ it. Reads (streams (types left)) self.old (see_type it) self.new) }
        ensures stops { IfErr result (Refuses (streams (types left)) self.old) }
    {
        let span = self.read_word(Word::Stream)?;
        let item = self.read_payload(left)?;
        Ok(Type::Stream(span, item))
    }

    /// Reads a type in angles, where there is one.
    #[cycle(types)]
    #[tactic(auto, unfolding(wit_grammar::specs::Rules::payload, wit_grammar::specs::Leaves::mark_at))]
    fn read_payload(&mut self, left: u8) -> ReadResult<Option<Box<Type<'a>>>>
        ensures reads { IfOk result (λ it. ReadsOn (payload (types left)) self.old (see_boxed it) self.new) }
        ensures stops { IfErr result (Refuses (payload (types left)) self.old) }
    {
        if !self.at(Kind::OpenAngle) {
            return Ok(None);
        }
        self.bump()?;
        let payload = self.read_boxed_before(left, Kind::CloseAngle)?;
        Ok(Some(payload))
    }

    /// Reads a type and the token of a kind after it, and boxes the type.
    #[cycle(types)]
    fn read_boxed_before(&mut self, left: u8, close: Kind) -> ReadResult<Box<Type<'a>>>
        ensures reads { IfOk result (λ it. Reads (types left ◂ close) self.old (see_type it.value) self.new) }
        ensures stops { IfErr result (Refuses (types left ◂ close) self.old) }
    {
        let ty = self.read_type(left)?;
        let closed = self.closed(ty, close)?;
        let boxed = Box::new(self.alloc, closed)?;
        Ok(boxed)
    }

    /// Reads a type, and boxes it.
    #[cycle(types)]
    fn read_boxed(&mut self, left: u8) -> ReadResult<Box<Type<'a>>>
        ensures reads { IfOk result (λ it. Reads (types left) self.old (see_type it.value) self.new) }
        ensures stops { IfErr result (Refuses (types left) self.old) }
    {
        let ty = self.read_type(left)?;
        Ok(Box::new(self.alloc, ty)?)
    }
}
