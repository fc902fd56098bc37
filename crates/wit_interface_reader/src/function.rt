//! Reading functions.
ghost use Rattle.std.specs.Prelude.{map, IfOk, IfErr};
ghost use Rattle.std.specs.Option.{option_map};
ghost use Rattle.wit_grammar.specs.Seen.{see_type, see_param, see_func, see_named_func};
ghost use Rattle.wit_grammar.specs.Rules.{param, params, returned, signature, function};
ghost use Rattle.wit_grammar.specs.ItemRules.{closed_function, closed_signature, named_function};
ghost use Rattle.wit_reader.specs.Reading.{Reads, ReadsOn, Refuses};
ghost use Rattle.wit_interface_reader.specs.After.{named_after};
ghost use Rattle.wit_interface_reader.specs.ReadParts.{see_signature};

use crate::func_words::read_form;
use wit_lex::fault::ReadResult;
use wit_lex::kind::Kind;
use wit_reader::before_item::Prefix;
use wit_reader::reader::Reader;
use wit_reader::room::add;
use wit_reader::types::MOST_NESTED;
use wit_tree::tree::{Func, NamedFunc, Param, Type};

#[tactic(auto, unfolding(wit_grammar::specs::Rules::param))]
fn read_param<'a>(reader: &mut Reader<'a>) -> ReadResult<Param<'a>>
    ensures reads { IfOk result (λ it. Reads param reader.old (see_param it) reader.new) }
    ensures stops { IfErr result (Refuses param reader.old) }
{
    let name = reader.read_label()?;
    let ty = reader.read_type(MOST_NESTED)?;
    Ok(Param { name, ty })
}

/// Reads parameters in parentheses.
#[tactic(auto, unfolding(wit_grammar::specs::Rules::params))]
fn read_params<'a>(reader: &mut Reader<'a>) -> ReadResult<Vec<Param<'a>>>
    ensures reads { IfOk result (λ it. Reads params reader.old (map see_param it.items) reader.new) }
    ensures stops { IfErr result (Refuses params reader.old) }
{
    let mut more = reader.open_list(Kind::OpenParen, Kind::CloseParen)?;
    let mut params = Vec::new(reader.alloc);
    'params: while more {
        let param = read_param(reader)?;
        add(&mut params, param, reader.at(Kind::CloseParen))?;
        more = reader.next_in_list(Kind::CloseParen)?;
    }
    Ok(params)
}

/// Reads `->` and the type of what a function returns, where there is one.
#[tactic(auto, unfolding(wit_grammar::specs::Rules::returned, wit_grammar::specs::Leaves::mark_at))]
fn read_returned<'a>(reader: &mut Reader<'a>) -> ReadResult<Option<Type<'a>>>
    ensures reads { IfOk result (λ it. ReadsOn returned reader.old (option_map see_type it) reader.new) }
    ensures stops { IfErr result (Refuses returned reader.old) }
{
    if !reader.at(Kind::Arrow) {
        return Ok(None);
    }
    reader.bump()?;
    let ty = reader.read_type(MOST_NESTED)?;
    Ok(Some(ty))
}

/// Reads parameters in parentheses, and the type of what a function returns, where there is one.
#[tactic(auto, unfolding(wit_grammar::specs::Rules::signature))]
pub fn read_signature<'a>(reader: &mut Reader<'a>) -> ReadResult<(Vec<Param<'a>>, Option<Type<'a>>)>
    ensures reads { IfOk result (λ it. Reads signature reader.old (see_signature it) reader.new) }
    ensures stops { IfErr result (Refuses signature reader.old) }
{
    let params = read_params(reader)?;
    let returned = read_returned(reader)?;
    Ok((params, returned))
}

/// Reads parameters, the type of what a function returns, where there is one, and the `;` after them.
#[tactic(auto, unfolding(wit_grammar::specs::ItemRules::closed_signature))]
pub fn read_closed_signature<'a>(
    reader: &mut Reader<'a>,
) -> ReadResult<(Vec<Param<'a>>, Option<Type<'a>>)>
    ensures reads { IfOk result (λ it. Reads closed_signature reader.old (see_signature it) reader.new) }
    ensures stops { IfErr result (Refuses closed_signature reader.old) }
{
    let signature = read_signature(reader)?;
    let closed = reader.closed(signature, Kind::Semicolon)?;
    Ok(closed)
}

/// Reads a function without its name.
#[tactic(auto, unfolding(wit_grammar::specs::Rules::function))]
pub fn read_func<'a>(reader: &mut Reader<'a>) -> ReadResult<Func<'a>>
    ensures reads { IfOk result (λ it. Reads function reader.old (see_func it) reader.new) }
    ensures stops { IfErr result (Refuses function reader.old) }
{
    let form = read_form(reader)?;
    let (params, returned) = read_signature(reader)?;
    Ok(Func {
        span: form.0,
        form: form.1,
        params,
        result: returned,
    })
}

/// Reads a function without its name, and the `;` after it.
#[tactic(auto, unfolding(wit_grammar::specs::ItemRules::closed_function))]
pub fn read_closed_func<'a>(reader: &mut Reader<'a>) -> ReadResult<Func<'a>>
    ensures reads { IfOk result (λ it. Reads closed_function reader.old (see_func it) reader.new) }
    ensures stops { IfErr result (Refuses closed_function reader.old) }
{
    let func = read_func(reader)?;
    let closed = reader.closed(func, Kind::Semicolon)?;
    Ok(closed)
}

/// Reads `name: function;`.
#[tactic(auto, unfolding(wit_grammar::specs::ItemRules::named_function))]
pub fn read_named_func<'a>(reader: &mut Reader<'a>, prefix: Prefix<'a>) -> ReadResult<NamedFunc<'a>>
    ensures reads { IfOk result (λ it. Reads (named_after prefix.entry) reader.old (see_named_func it) reader.new) }
    ensures stops { IfErr result (Refuses named_function reader.old) }
{
    let name = reader.read_label()?;
    let func = read_closed_func(reader)?;
    Ok(NamedFunc {
        docs: prefix.docs,
        attributes: prefix.attributes,
        name,
        func,
    })
}
