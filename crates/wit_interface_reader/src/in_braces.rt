//! Reading fields, flags and cases.
ghost use Rattle.std.specs.Prelude.{map, IfOk, IfErr};
ghost use Rattle.std.specs.Option.{option_map};
ghost use Rattle.wit_grammar.specs.Seen.{see_type, see_field, see_flag, see_case, see_enum_case};
ghost use Rattle.wit_grammar.specs.ItemRules.{field, flag, case, case_type};
ghost use Rattle.wit_reader.specs.Reading.{Reads, ReadsOn, Refuses};
ghost use Rattle.wit_interface_reader.specs.ReadParts.{braced_list};

use wit_lex::fault::ReadResult;
use wit_lex::kind::Kind;
use wit_reader::reader::Reader;
use wit_reader::room::add;
use wit_reader::types::MOST_NESTED;
use wit_tree::tree::{Case, EnumCase, Field, Flag, Type};
use wit_values::shrunk;

#[tactic(auto, unfolding(wit_grammar::specs::ItemRules::field))]
fn read_field<'a>(reader: &mut Reader<'a>) -> ReadResult<Field<'a>>
    ensures reads { IfOk result (λ it. Reads field reader.old (see_field it) reader.new) }
    ensures stops { IfErr result (Refuses field reader.old) }
{
    let docs = reader.read_docs()?;
    let name = reader.read_label()?;
    let ty = reader.read_type(MOST_NESTED)?;
    Ok(Field { docs, name, ty })
}

/// Reads fields in braces.
#[tactic(auto, unfolding(wit_grammar::specs::Grammar::listed_at))]
pub fn read_fields<'a>(reader: &mut Reader<'a>) -> ReadResult<Vec<Field<'a>>>
    ensures reads { IfOk result (λ it. Reads (braced_list field) reader.old (map see_field it.items) reader.new) }
    ensures stops { IfErr result (Refuses (braced_list field) reader.old) }
{
    let mut more = reader.open_list(Kind::OpenBrace, Kind::CloseBrace)?;
    let mut fields = Vec::new(reader.alloc);
    'fields: while more {
        let field = read_field(reader)?;
        add(&mut fields, field, reader.at(Kind::CloseBrace))?;
        more = reader.next_in_list(Kind::CloseBrace)?;
    }
    Ok(shrunk(fields))
}

#[tactic(auto, unfolding(wit_grammar::specs::ItemRules::flag))]
fn read_flag<'a>(reader: &mut Reader<'a>) -> ReadResult<Flag<'a>>
    ensures reads { IfOk result (λ it. Reads flag reader.old (see_flag it) reader.new) }
    ensures stops { IfErr result (Refuses flag reader.old) }
{
    let docs = reader.read_docs()?;
    let name = reader.read_id()?;
    Ok(Flag { docs, name })
}

/// Reads flags in braces.
#[tactic(auto, unfolding(wit_grammar::specs::Grammar::listed_at))]
pub fn read_flags<'a>(reader: &mut Reader<'a>) -> ReadResult<Vec<Flag<'a>>>
    ensures reads { IfOk result (λ it. Reads (braced_list flag) reader.old (map see_flag it.items) reader.new) }
    ensures stops { IfErr result (Refuses (braced_list flag) reader.old) }
{
    let mut more = reader.open_list(Kind::OpenBrace, Kind::CloseBrace)?;
    let mut flags = Vec::new(reader.alloc);
    'flags: while more {
        let flag = read_flag(reader)?;
        add(&mut flags, flag, reader.at(Kind::CloseBrace))?;
        more = reader.next_in_list(Kind::CloseBrace)?;
    }
    Ok(shrunk(flags))
}

/// Reads the type that a case holds, in parentheses, where there is one.
#[tactic(auto, unfolding(wit_grammar::specs::ItemRules::case_type, wit_grammar::specs::Leaves::mark_at))]
fn read_element<'a>(reader: &mut Reader<'a>) -> ReadResult<Option<Type<'a>>>
    ensures reads { IfOk result (λ it. ReadsOn case_type reader.old (option_map see_type it) reader.new) }
    ensures stops { IfErr result (Refuses case_type reader.old) }
{
    if !reader.at(Kind::OpenParen) {
        return Ok(None);
    }
    reader.bump()?;
    let ty = reader.read_closed_type(Kind::CloseParen)?;
    Ok(Some(ty))
}

#[tactic(auto, unfolding(wit_grammar::specs::ItemRules::case))]
fn read_case<'a>(reader: &mut Reader<'a>) -> ReadResult<Case<'a>>
    ensures reads { IfOk result (λ it. Reads case reader.old (see_case it) reader.new) }
    ensures stops { IfErr result (Refuses case reader.old) }
{
    let docs = reader.read_docs()?;
    let name = reader.read_id()?;
    let ty = read_element(reader)?;
    Ok(Case { docs, name, ty })
}

/// Reads the cases of a variant in braces.
#[tactic(auto, unfolding(wit_grammar::specs::Grammar::listed_at))]
pub fn read_cases<'a>(reader: &mut Reader<'a>) -> ReadResult<Vec<Case<'a>>>
    ensures reads { IfOk result (λ it. Reads (braced_list case) reader.old (map see_case it.items) reader.new) }
    ensures stops { IfErr result (Refuses (braced_list case) reader.old) }
{
    let mut more = reader.open_list(Kind::OpenBrace, Kind::CloseBrace)?;
    let mut cases = Vec::new(reader.alloc);
    'cases: while more {
        let case = read_case(reader)?;
        add(&mut cases, case, reader.at(Kind::CloseBrace))?;
        more = reader.next_in_list(Kind::CloseBrace)?;
    }
    Ok(shrunk(cases))
}

#[tactic(auto, unfolding(wit_grammar::specs::ItemRules::flag))]
fn read_enum_case<'a>(reader: &mut Reader<'a>) -> ReadResult<EnumCase<'a>>
    ensures reads { IfOk result (λ it. Reads flag reader.old (see_enum_case it) reader.new) }
    ensures stops { IfErr result (Refuses flag reader.old) }
{
    let docs = reader.read_docs()?;
    let name = reader.read_id()?;
    Ok(EnumCase { docs, name })
}

/// Reads the cases of an enum in braces.
#[tactic(auto, unfolding(wit_grammar::specs::Grammar::listed_at))]
pub fn read_enum_cases<'a>(reader: &mut Reader<'a>) -> ReadResult<Vec<EnumCase<'a>>>
    ensures reads { IfOk result (λ it. Reads (braced_list flag) reader.old (map see_enum_case it.items) reader.new) }
    ensures stops { IfErr result (Refuses (braced_list flag) reader.old) }
{
    let mut more = reader.open_list(Kind::OpenBrace, Kind::CloseBrace)?;
    let mut cases = Vec::new(reader.alloc);
    'cases: while more {
        let case = read_enum_case(reader)?;
        add(&mut cases, case, reader.at(Kind::CloseBrace))?;
        more = reader.next_in_list(Kind::CloseBrace)?;
    }
    Ok(shrunk(cases))
}
