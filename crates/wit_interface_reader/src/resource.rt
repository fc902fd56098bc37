//! Reading resources.
ghost use Rattle.std.specs.Prelude.{◌≡◌, map, IfOk, IfErr};
ghost use Rattle.wit_grammar.specs.Seen.{see_name, see_func, see_resource_func};
ghost use Rattle.wit_grammar.specs.ItemRules.{constructed, is_static, member, member_of, braced_functions, resource_function, resource_body, resource_definition};
ghost use Rattle.wit_reader.specs.Reading.{Reads, ReadsOn, Refuses};
ghost use Rattle.wit_interface_reader.specs.After.{prefix_of, constructed_after, member_after};
ghost use Rattle.wit_interface_reader.specs.ReadParts.{see_defined};

use crate::function::{read_closed_func, read_closed_signature};
use wit_lex::fault::ReadResult;
use wit_lex::kind::Kind;
use wit_lex::word::Word;
use wit_reader::before_item::Prefix;
use wit_reader::reader::Reader;
use wit_tree::tree::{Func, Id, NamedFunc, ResourceFunc, TypeBody};
use wit_values::{push, shrunk};

/// The function of a resource, with this name.
fn resource_func<'a>(
    is_static: bool,
    prefix: Prefix<'a>,
    name: Id<'a>,
    func: Func<'a>,
) -> ResourceFunc<'a>
    ensures { see_resource_func result ≡ member_of (prefix_of prefix.entry) (see_name name.entry, is_static, see_func func.entry) }
{
    let named = NamedFunc {
        docs: prefix.docs,
        attributes: prefix.attributes,
        name,
        func,
    };
    if is_static {
        ResourceFunc::Static(named)
    } else {
        ResourceFunc::Method(named)
    }
}

/// Reads `constructor(..);`, perhaps with the type of what it returns.
#[tactic(auto, unfolding(wit_grammar::specs::ItemRules::constructed))]
fn read_constructor<'a>(reader: &mut Reader<'a>, prefix: Prefix<'a>) -> ReadResult<ResourceFunc<'a>>
    ensures reads { IfOk result (λ it. Reads (constructed_after prefix.entry) reader.old (see_resource_func it) reader.new) }
    ensures stops { IfErr result (Refuses constructed reader.old) }
{
    let span = reader.read_word(Word::Constructor)?;
    let (params, returned) = read_closed_signature(reader)?;
    Ok(ResourceFunc::Constructor {
        docs: prefix.docs,
        attributes: prefix.attributes,
        span,
        params,
        result: returned,
    })
}

/// Goes past `static`, where it is the token, and says whether it is.
#[tactic(auto, unfolding(wit_grammar::specs::ItemRules::is_static, wit_grammar::specs::Leaves::mark_at))]
fn skip_static(reader: &mut Reader<'_>) -> ReadResult<bool>
    ensures reads { IfOk result (λ it. ReadsOn is_static reader.old it reader.new) }
    ensures stops { IfErr result (Refuses is_static reader.old) }
{
    if !reader.at_word(Word::Static) {
        return Ok(false);
    }
    reader.bump()?;
    Ok(true)
}

/// Reads `name: function;`, perhaps with `static` before the function.
#[tactic(auto, unfolding(wit_grammar::specs::ItemRules::member))]
fn read_member<'a>(reader: &mut Reader<'a>, prefix: Prefix<'a>) -> ReadResult<ResourceFunc<'a>>
    ensures reads { IfOk result (λ it. Reads (member_after prefix.entry) reader.old (see_resource_func it) reader.new) }
    ensures stops { IfErr result (Refuses member reader.old) }
{
    let name = reader.read_label()?;
    let is_static = skip_static(reader)?;
    let func = read_closed_func(reader)?;
    Ok(resource_func(is_static, prefix, name, func))
}

/// Reads a function of a resource.
#[tactic(auto, unfolding(wit_grammar::specs::ItemRules::resource_function))]
fn read_resource_func<'a>(reader: &mut Reader<'a>) -> ReadResult<ResourceFunc<'a>>
    ensures reads { IfOk result (λ it. Reads resource_function reader.old (see_resource_func it) reader.new) }
    ensures stops { IfErr result (Refuses resource_function reader.old) }
{
    let prefix = reader.read_prefix()?;
    if reader.at_word(Word::Constructor) {
        let constructor = read_constructor(reader, prefix)?;
        return Ok(constructor);
    }
    let member = read_member(reader, prefix)?;
    Ok(member)
}

/// Reads the functions of a resource in braces.
#[tactic(auto, unfolding(wit_grammar::specs::ItemRules::braced_functions))]
fn read_resource_funcs<'a>(reader: &mut Reader<'a>) -> ReadResult<Vec<ResourceFunc<'a>>>
    ensures reads { IfOk result (λ it. Reads braced_functions reader.old (map see_resource_func it.items) reader.new) }
    ensures stops { IfErr result (Refuses braced_functions reader.old) }
{
    reader.expect(Kind::OpenBrace)?;
    let mut funcs = Vec::new(reader.alloc);
    'funcs: while !reader.at(Kind::CloseBrace) {
        let func = read_resource_func(reader)?;
        push(&mut funcs, func)?;
    }
    reader.bump()?;
    Ok(shrunk(funcs))
}

/// Reads `;`, or functions in braces.
#[tactic(auto, unfolding(wit_grammar::specs::ItemRules::resource_body, wit_grammar::specs::Leaves::mark_at))]
fn read_resource_body<'a>(reader: &mut Reader<'a>) -> ReadResult<Vec<ResourceFunc<'a>>>
    ensures reads { IfOk result (λ it. Reads resource_body reader.old (map see_resource_func it.items) reader.new) }
    ensures stops { IfErr result (Refuses resource_body reader.old) }
{
    if reader.at(Kind::Semicolon) {
        reader.bump()?;
        return Ok(Vec::new(reader.alloc));
    }
    let funcs = read_resource_funcs(reader)?;
    Ok(funcs)
}

/// Reads `resource name;` or `resource name { .. }`.
#[tactic(auto, unfolding(wit_grammar::specs::ItemRules::resource_definition))]
pub fn read_resource<'a>(reader: &mut Reader<'a>) -> ReadResult<(Id<'a>, TypeBody<'a>)>
    ensures reads { IfOk result (λ it. Reads resource_definition reader.old (see_defined it) reader.new) }
    ensures stops { IfErr result (Refuses resource_definition reader.old) }
{
    reader.expect_word(Word::Resource)?;
    let name = reader.read_id()?;
    let funcs = read_resource_body(reader)?;
    Ok((name, TypeBody::Resource { funcs }))
}
