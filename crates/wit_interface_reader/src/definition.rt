//! Reading definitions of types, and the items of an interface.
ghost use Rattle.std.specs.Prelude.{map, IfOk, IfErr};
ghost use Rattle.wit_grammar.specs.Seen.{see_definition, see_item};
ghost use Rattle.wit_grammar.specs.ItemRules.{alias_definition, record_definition, flags_definition, variant_definition, enum_definition, definition, interface_item, interface_items};
ghost use Rattle.wit_reader.specs.Reading.{Reads, Refuses};
ghost use Rattle.wit_interface_reader.specs.After.{defined_after};
ghost use Rattle.wit_interface_reader.specs.ReadParts.{see_defined};

use crate::function::read_named_func;
use crate::in_braces::{read_cases, read_enum_cases, read_fields, read_flags};
use crate::resource::read_resource;
use wit_lex::fault::ReadResult;
use wit_lex::kind::Kind;
use wit_lex::word::Word;
use wit_reader::before_item::Prefix;
use wit_reader::reader::Reader;
use wit_reader::room::add;
use wit_tree::tree::{Id, InterfaceItem, TypeBody, TypeDef};
use wit_values::shrunk;

/// Reads `type name = type;`.
#[tactic(auto, unfolding(wit_grammar::specs::ItemRules::alias_definition))]
fn read_alias<'a>(reader: &mut Reader<'a>) -> ReadResult<(Id<'a>, TypeBody<'a>)>
    ensures reads { IfOk result (λ it. Reads alias_definition reader.old (see_defined it) reader.new) }
    ensures stops { IfErr result (Refuses alias_definition reader.old) }
{
    reader.expect_word(Word::Type)?;
    let name = reader.read_id()?;
    reader.expect(Kind::Equals)?;
    let ty = reader.read_closed_type(Kind::Semicolon)?;
    Ok((name, TypeBody::Plain(ty)))
}

/// Reads `record name { name: type, .. }`.
#[tactic(auto, unfolding(wit_grammar::specs::ItemRules::record_definition))]
fn read_record<'a>(reader: &mut Reader<'a>) -> ReadResult<(Id<'a>, TypeBody<'a>)>
    ensures reads { IfOk result (λ it. Reads record_definition reader.old (see_defined it) reader.new) }
    ensures stops { IfErr result (Refuses record_definition reader.old) }
{
    reader.expect_word(Word::Record)?;
    let name = reader.read_id()?;
    let fields = read_fields(reader)?;
    let span = name.span;
    Ok((name, TypeBody::Record { span, fields }))
}

/// Reads `flags name { name, .. }`.
#[tactic(auto, unfolding(wit_grammar::specs::ItemRules::flags_definition))]
fn read_flags_definition<'a>(reader: &mut Reader<'a>) -> ReadResult<(Id<'a>, TypeBody<'a>)>
    ensures reads { IfOk result (λ it. Reads flags_definition reader.old (see_defined it) reader.new) }
    ensures stops { IfErr result (Refuses flags_definition reader.old) }
{
    reader.expect_word(Word::Flags)?;
    let name = reader.read_id()?;
    let flags = read_flags(reader)?;
    let span = name.span;
    Ok((name, TypeBody::Flags { span, flags }))
}

/// Reads `variant name { name(type), .. }`, where a case may have no type.
#[tactic(auto, unfolding(wit_grammar::specs::ItemRules::variant_definition))]
fn read_variant<'a>(reader: &mut Reader<'a>) -> ReadResult<(Id<'a>, TypeBody<'a>)>
    ensures reads { IfOk result (λ it. Reads variant_definition reader.old (see_defined it) reader.new) }
    ensures stops { IfErr result (Refuses variant_definition reader.old) }
{
    reader.expect_word(Word::Variant)?;
    let name = reader.read_id()?;
    let cases = read_cases(reader)?;
    let span = name.span;
    Ok((name, TypeBody::Variant { span, cases }))
}

/// Reads `enum name { name, .. }`.
#[tactic(auto, unfolding(wit_grammar::specs::ItemRules::enum_definition))]
fn read_enum<'a>(reader: &mut Reader<'a>) -> ReadResult<(Id<'a>, TypeBody<'a>)>
    ensures reads { IfOk result (λ it. Reads enum_definition reader.old (see_defined it) reader.new) }
    ensures stops { IfErr result (Refuses enum_definition reader.old) }
{
    reader.expect_word(Word::Enum)?;
    let name = reader.read_id()?;
    let cases = read_enum_cases(reader)?;
    let span = name.span;
    Ok((name, TypeBody::Enum { span, cases }))
}

/// Reads the name and the body of a definition.
#[tactic(auto, unfolding(wit_grammar::specs::ItemRules::definition))]
fn read_body<'a>(reader: &mut Reader<'a>) -> ReadResult<(Id<'a>, TypeBody<'a>)>
    ensures reads { IfOk result (λ it. Reads definition reader.old (see_defined it) reader.new) }
    ensures stops { IfErr result (Refuses definition reader.old) }
{
    if reader.at_word(Word::Type) {
        return read_alias(reader);
    }
    if reader.at_word(Word::Record) {
        return read_record(reader);
    }
    if reader.at_word(Word::Flags) {
        return read_flags_definition(reader);
    }
    if reader.at_word(Word::Variant) {
        return read_variant(reader);
    }
    if reader.at_word(Word::Enum) {
        return read_enum(reader);
    }
    read_resource(reader)
}

/// Reads a definition, of an interface or of a world.
pub fn read_definition<'a>(reader: &mut Reader<'a>, prefix: Prefix<'a>) -> ReadResult<TypeDef<'a>>
    ensures reads { IfOk result (λ it. Reads (defined_after prefix.entry) reader.old (see_definition it) reader.new) }
    ensures stops { IfErr result (Refuses definition reader.old) }
{
    let (name, body) = read_body(reader)?;
    Ok(TypeDef {
        docs: prefix.docs,
        attributes: prefix.attributes,
        name,
        body,
    })
}

/// Reads an item of an interface.
#[tactic(auto, unfolding(wit_grammar::specs::ItemRules::interface_item))]
fn read_item<'a>(reader: &mut Reader<'a>) -> ReadResult<InterfaceItem<'a>>
    ensures reads { IfOk result (λ it. Reads interface_item reader.old (see_item it) reader.new) }
    ensures stops { IfErr result (Refuses interface_item reader.old) }
{
    let prefix = reader.read_prefix()?;
    if reader.at_word(Word::Use) {
        let names = reader.read_use(prefix.attributes)?;
        return Ok(InterfaceItem::Use(names));
    }
    if reader.at(Kind::Name) {
        let func = read_named_func(reader, prefix)?;
        return Ok(InterfaceItem::Func(func));
    }
    let definition = read_definition(reader, prefix)?;
    Ok(InterfaceItem::TypeDef(definition))
}

/// Reads the items of an interface in braces.
#[tactic(auto, unfolding(wit_grammar::specs::ItemRules::interface_items))]
pub fn read_interface_items<'a>(reader: &mut Reader<'a>) -> ReadResult<Vec<InterfaceItem<'a>>>
    ensures reads { IfOk result (λ it. Reads interface_items reader.old (map see_item it.items) reader.new) }
    ensures stops { IfErr result (Refuses interface_items reader.old) }
{
    reader.expect(Kind::OpenBrace)?;
    let mut items = Vec::new(reader.alloc);
    'items: while !reader.at(Kind::CloseBrace) {
        let item = read_item(reader)?;
        add(&mut items, item, reader.at(Kind::CloseBrace))?;
    }
    reader.bump()?;
    Ok(shrunk(items))
}
