//! Reading the words that functions begin with.
ghost use Rattle.std.specs.Prelude.{◌≡◌, IfOk, IfErr};
ghost use Rattle.wit_grammar.specs.Seen.{see_name};
ghost use Rattle.wit_grammar.specs.Grammar.{starts};
ghost use Rattle.wit_grammar.specs.Rules.{accessor, func_word, form};
ghost use Rattle.wit_grammar.specs.ItemRules.{accessor_name};
ghost use Rattle.wit_reader.specs.Reading.{Reads, Refuses, spot};

use wit_lex::fault::ReadResult;
use wit_lex::word::Word;
use wit_reader::reader::Reader;
use wit_tree::Span;
use wit_tree::tree::{FuncForm, Id};

/// Whether the token is `get` or `set`.
#[tactic(auto, unfolding(wit_grammar::specs::Rules::accessor))]
pub fn at_accessor(reader: &Reader<'_>) -> bool
    ensures { result ≡ starts accessor (spot reader.now) }
{
    reader.at_text("get") || reader.at_text("set")
}

/// Reads `get` or `set`, as a name, and gives the form of a function that it begins.
#[tactic(auto, unfolding(wit_grammar::specs::Rules::accessor))]
pub fn read_accessor<'a>(reader: &mut Reader<'a>) -> ReadResult<(Id<'a>, FuncForm)>
    ensures reads { IfOk result (λ it. Reads accessor reader.old (it.0.span, it.1) reader.new) }
    ensures name { IfOk result (λ it. see_name it.0 ≡ accessor_name (it.0.span, it.1)) }
    ensures stops { IfErr result (Refuses accessor reader.old) }
{
    if reader.at_text("get") {
        let span = reader.read_text("get")?;
        return Ok((Id { name: "get", span }, FuncForm::Getter));
    }
    let span = reader.read_text("set")?;
    Ok((Id { name: "set", span }, FuncForm::Setter))
}

/// Reads `func` or `async func`, and says where `func` is.
#[tactic(auto, unfolding(wit_grammar::specs::Rules::func_word, wit_grammar::specs::Leaves::mark_at))]
pub fn read_func_word(reader: &mut Reader<'_>) -> ReadResult<(Span, FuncForm)>
    ensures reads { IfOk result (λ it. Reads func_word reader.old it reader.new) }
    ensures stops { IfErr result (Refuses func_word reader.old) }
{
    if reader.at_word(Word::Async) {
        reader.bump()?;
        let span = reader.read_word(Word::Func)?;
        return Ok((span, FuncForm::Async));
    }
    let span = reader.read_word(Word::Func)?;
    Ok((span, FuncForm::Plain))
}

/// Reads `func`, `async func`, `get` or `set`, and says where the word of these is that is not
/// `async`.
#[tactic(auto, unfolding(wit_grammar::specs::Rules::form))]
pub fn read_form(reader: &mut Reader<'_>) -> ReadResult<(Span, FuncForm)>
    ensures reads { IfOk result (λ it. Reads form reader.old it reader.new) }
    ensures stops { IfErr result (Refuses form reader.old) }
{
    if at_accessor(reader) {
        let (name, form) = read_accessor(reader)?;
        return Ok((name.span, form));
    }
    read_func_word(reader)
}
