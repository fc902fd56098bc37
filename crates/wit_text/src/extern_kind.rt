//! Reading what worlds import and export.
ghost use Rattle.std.specs.Prelude.{◌≡◌, IfOk, IfErr};
ghost use Rattle.wit_grammar.specs.Grammar.{starts};
ghost use Rattle.wit_grammar.specs.Seen.{see_kind, see_extern};
ghost use Rattle.wit_grammar.specs.ItemRules.{inline_items, worded_function, after_second, get_or_set, after_colon, extern_kind, side, extern};
ghost use Rattle.wit_reader.specs.Reading.{Reads, Refuses, spot};
ghost use Rattle.wit_text.specs.After.{accessor_after, extern_after, inline_after, kind_after, path_after, worded_after};

use wit_interface_reader::definition::read_interface_items;
use wit_interface_reader::func_words::{at_accessor, read_accessor, read_func_word};
use wit_interface_reader::function::read_closed_signature;
use wit_lex::fault::ReadResult;
use wit_lex::kind::Kind;
use wit_lex::word::Word;
use wit_reader::before_item::Prefix;
use wit_reader::reader::Reader;
use wit_tree::tree::{Extern, ExternKind, Func, Id, UsePath, WorldSide};

/// Reads the rest of an interface that is written in a world, after its name and `:`.
#[tactic(auto, unfolding(wit_grammar::specs::ItemRules::inline_items))]
fn read_inline_interface<'a>(reader: &mut Reader<'a>, name: Id<'a>) -> ReadResult<ExternKind<'a>>
    ensures reads { IfOk result (λ it. Reads (inline_after name.entry) reader.old (see_kind it) reader.new) }
    ensures stops { IfErr result (Refuses inline_items reader.old) }
{
    reader.expect_word(Word::Interface)?;
    let items = read_interface_items(reader)?;
    Ok(ExternKind::Interface(name, items))
}

/// Reads the rest of a function that begins with `func` or `async`, after its name and `:`.
#[tactic(auto, unfolding(wit_grammar::specs::ItemRules::worded_function))]
fn read_extern_func<'a>(reader: &mut Reader<'a>, name: Id<'a>) -> ReadResult<ExternKind<'a>>
    ensures reads { IfOk result (λ it. Reads (worded_after name.entry) reader.old (see_kind it) reader.new) }
    ensures stops { IfErr result (Refuses worded_function reader.old) }
{
    let (span, form) = read_func_word(reader)?;
    let (params, result) = read_closed_signature(reader)?;
    let func = Func {
        span,
        form,
        params,
        result,
    };
    Ok(ExternKind::Func(name, func))
}

/// Reads the rest of a path with its `;`, after its first two names: that of an item of a package, or one
/// which the second name begins, and to which the world gives the first as its name.
#[tactic(auto, unfolding(wit_grammar::specs::ItemRules::after_second))]
fn read_after_second<'a>(
    reader: &mut Reader<'a>,
    first: Id<'a>,
    second: Id<'a>,
) -> ReadResult<ExternKind<'a>>
    ensures reads { IfOk result (λ it. Reads (path_after first.entry second.entry) reader.old (see_kind it) reader.new) }
    ensures stops { IfErr result (Refuses after_second reader.old) }
{
    if reader.at(Kind::Slash) {
        let path = reader.read_item_path(first, second)?;
        let closed = reader.closed(path, Kind::Semicolon)?;
        return Ok(ExternKind::Path(closed));
    }
    let path = reader.read_rest_of_path(second)?;
    let closed = reader.closed(path, Kind::Semicolon)?;
    Ok(ExternKind::NamedPath(first, closed))
}

/// Reads what follows a name and `:` where that is `get` or `set`: a function of this form where `(` follows, else a
/// path that begins with this name.
#[tactic(auto, unfolding(wit_grammar::specs::ItemRules::get_or_set))]
fn read_get_or_set<'a>(reader: &mut Reader<'a>, name: Id<'a>) -> ReadResult<ExternKind<'a>>
    ensures reads { IfOk result (λ it. Reads (accessor_after name.entry) reader.old (see_kind it) reader.new) }
    ensures stops { IfErr result (Refuses get_or_set reader.old) }
{
    let (word, form) = read_accessor(reader)?;
    if !reader.at(Kind::OpenParen) {
        let kind = read_after_second(reader, name, word)?;
        return Ok(kind);
    }
    let (params, result) = read_closed_signature(reader)?;
    let func = Func {
        span: word.span,
        form,
        params,
        result,
    };
    Ok(ExternKind::Func(name, func))
}

/// Whether the token is `func` or `async`.
#[tactic(auto, unfolding(wit_grammar::specs::ItemRules::worded_function, wit_grammar::specs::Rules::func_word))]
fn at_func(reader: &Reader<'_>) -> bool
    ensures { result ≡ starts worded_function (spot reader.now) }
{
    reader.at_word(Word::Func) || reader.at_word(Word::Async)
}

/// Reads what follows a name and `:`.
fn read_after_colon<'a>(reader: &mut Reader<'a>, name: Id<'a>) -> ReadResult<ExternKind<'a>>
    ensures reads { IfOk result (λ it. Reads (kind_after name.entry) reader.old (see_kind it) reader.new) }
    ensures stops { IfErr result (Refuses after_colon reader.old) }
{
    if reader.at_word(Word::Interface) {
        let kind = read_inline_interface(reader, name)?;
        return Ok(kind);
    }
    if at_func(reader) {
        let kind = read_extern_func(reader, name)?;
        return Ok(kind);
    }
    if at_accessor(reader) {
        let kind = read_get_or_set(reader, name)?;
        return Ok(kind);
    }
    let second = reader.read_id()?;
    let kind = read_after_second(reader, name, second)?;
    Ok(kind)
}

/// Reads what is imported or exported.
#[tactic(auto, unfolding(wit_grammar::specs::ItemRules::extern_kind, wit_grammar::specs::Leaves::mark_at))]
fn read_extern<'a>(reader: &mut Reader<'a>) -> ReadResult<ExternKind<'a>>
    ensures reads { IfOk result (λ it. Reads extern_kind reader.old (see_kind it) reader.new) }
    ensures stops { IfErr result (Refuses extern_kind reader.old) }
{
    let first = reader.read_id()?;
    if !reader.at(Kind::Colon) {
        reader.expect(Kind::Semicolon)?;
        return Ok(ExternKind::Path(UsePath::Id(first)));
    }
    reader.bump()?;
    let kind = read_after_colon(reader, first)?;
    Ok(kind)
}

/// Whether the token is `import` or `export`.
#[tactic(auto, unfolding(wit_grammar::specs::ItemRules::side))]
pub fn at_side(reader: &Reader<'_>) -> bool
    ensures { result ≡ starts side (spot reader.now) }
{
    reader.at_word(Word::Import) || reader.at_word(Word::Export)
}

/// Reads `import` or `export`.
#[tactic(auto, unfolding(wit_grammar::specs::ItemRules::side))]
fn read_direction(reader: &mut Reader<'_>) -> ReadResult<WorldSide>
    ensures reads { IfOk result (λ it. Reads side reader.old it reader.new) }
    ensures stops { IfErr result (Refuses side reader.old) }
{
    if reader.at_word(Word::Import) {
        reader.expect_word(Word::Import)?;
        return Ok(WorldSide::Imported);
    }
    reader.expect_word(Word::Export)?;
    Ok(WorldSide::Exported)
}

/// Reads `import` or `export`, and what is imported or exported.
pub fn read_side<'a>(reader: &mut Reader<'a>, prefix: Prefix<'a>) -> ReadResult<Extern<'a>>
    ensures reads { IfOk result (λ it. Reads (extern_after prefix.entry) reader.old (see_extern it) reader.new) }
    ensures stops { IfErr result (Refuses extern reader.old) }
{
    let side = read_direction(reader)?;
    let kind = read_extern(reader)?;
    Ok(Extern {
        side,
        docs: prefix.docs,
        attributes: prefix.attributes,
        kind,
    })
}
