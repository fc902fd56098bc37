//! Reading worlds.
ghost use Rattle.std.specs.Prelude.{OnOk, IfOk, IfErr};
ghost use Rattle.std.specs.Prelude.{map};
ghost use Rattle.wit_grammar.specs.Seen.{see_renamed, see_include, see_world_item, see_world};
ghost use Rattle.wit_grammar.specs.Rules.{used};
ghost use Rattle.wit_grammar.specs.ItemRules.{definition, extern, maybe_semicolon, renamed, renames, include, world_item, world_items, world_rule};
ghost use Rattle.wit_reader.specs.Reading.{Reads, ReadsOn, Refuses};
ghost use Rattle.wit_text.specs.After.{extern_part_after, definition_after, include_after, includes_after, renamed_names, uses_after, world_after};
ghost use Rattle.wit_text.specs.WorldItems.{Adds};

use crate::extern_kind::{at_side, read_side};
use wit_interface_reader::definition::read_definition;
use wit_lex::fault::ReadResult;
use wit_lex::kind::Kind;
use wit_lex::word::Word;
use wit_reader::before_item::Prefix;
use wit_reader::reader::Reader;
use wit_reader::room::add;
use wit_tree::tree::{Attribute, Include, IncludeName, World, WorldItem};
use wit_values::{pair_with, shrunk};

/// Reads `name as name`.
#[tactic(auto, unfolding(wit_grammar::specs::ItemRules::renamed))]
fn read_renamed<'a>(reader: &mut Reader<'a>) -> ReadResult<IncludeName<'a>>
    ensures reads { IfOk result (λ it. Reads renamed reader.old (see_renamed it) reader.new) }
    ensures stops { IfErr result (Refuses renamed reader.old) }
{
    let name = reader.read_id()?;
    reader.expect_word(Word::As)?;
    let local = reader.read_id()?;
    Ok(IncludeName { name, as_: local })
}

/// Reads renamed names in braces.
fn read_renamed_names<'a>(reader: &mut Reader<'a>) -> ReadResult<Vec<IncludeName<'a>>>
    ensures reads { IfOk result (λ it. Reads renamed_names reader.old (map see_renamed it.items) reader.new) }
    ensures stops { IfErr result (Refuses renamed_names reader.old) }
{
    let mut more = reader.open_list(Kind::OpenBrace, Kind::CloseBrace)?;
    let mut names = Vec::new(reader.alloc);
    'names: while more {
        let renamed = read_renamed(reader)?;
        add(&mut names, renamed, reader.at(Kind::CloseBrace))?;
        more = reader.next_in_list(Kind::CloseBrace)?;
    }
    Ok(names)
}

/// Goes past a `;`, where there is one, and says whether there is.
#[tactic(auto, unfolding(wit_grammar::specs::ItemRules::maybe_semicolon, wit_grammar::specs::Leaves::mark_at))]
fn skip_semicolon(reader: &mut Reader<'_>) -> ReadResult<bool>
    ensures reads { IfOk result (λ it. ReadsOn maybe_semicolon reader.old it reader.new) }
    ensures stops { IfErr result (Refuses maybe_semicolon reader.old) }
{
    if !reader.at(Kind::Semicolon) {
        return Ok(false);
    }
    reader.bump()?;
    Ok(true)
}

/// Reads `;`, or `with { name as name, .. }` and perhaps a `;` after it.
#[tactic(auto, unfolding(wit_grammar::specs::ItemRules::renames, wit_grammar::specs::Leaves::mark_at))]
fn read_renames<'a>(reader: &mut Reader<'a>) -> ReadResult<Vec<IncludeName<'a>>>
    ensures reads { IfOk result (λ it. Reads renames reader.old (map see_renamed it.items) reader.new) }
    ensures stops { IfErr result (Refuses renames reader.old) }
{
    if !reader.at_word(Word::With) {
        reader.expect(Kind::Semicolon)?;
        return Ok(Vec::new(reader.alloc));
    }
    reader.bump()?;
    let names = read_renamed_names(reader)?;
    skip_semicolon(reader)?;
    Ok(names)
}

/// Reads `include path;`, perhaps with names that are renamed.
#[tactic(auto, unfolding(wit_grammar::specs::ItemRules::include))]
fn read_include<'a>(
    reader: &mut Reader<'a>,
    attributes: Vec<Attribute<'a>>,
) -> ReadResult<Include<'a>>
    ensures reads { IfOk result (λ it. Reads (include_after attributes.entry) reader.old (see_include it) reader.new) }
    ensures stops { IfErr result (Refuses include reader.old) }
{
    reader.expect_word(Word::Include)?;
    let path = reader.read_path()?;
    let (from, names) = pair_with(path, read_renames(reader))?;
    Ok(Include {
        attributes,
        from,
        names,
    })
}

/// Reads an import or an export, and puts it after the other items.
#[inline(never)]
fn add_side<'a>(
    reader: &mut Reader<'a>,
    prefix: Prefix<'a>,
    items: &mut Vec<WorldItem<'a>>,
) -> ReadResult<()>
    ensures reads { OnOk result (Adds (extern_part_after prefix.entry) reader.old items.old items.new reader.new) }
    ensures stops { IfErr result (Refuses extern reader.old) }
{
    let side = read_side(reader, prefix)?;
    add(items, WorldItem::Extern(side), reader.at(Kind::CloseBrace))?;
    Ok(())
}

/// Reads names that are used, and puts them after the other items.
#[inline(never)]
fn add_use<'a>(
    reader: &mut Reader<'a>,
    attributes: Vec<Attribute<'a>>,
    items: &mut Vec<WorldItem<'a>>,
) -> ReadResult<()>
    ensures reads { OnOk result (Adds (uses_after attributes.entry) reader.old items.old items.new reader.new) }
    ensures stops { IfErr result (Refuses used reader.old) }
{
    let names = reader.read_use(attributes)?;
    add(items, WorldItem::Use(names), reader.at(Kind::CloseBrace))?;
    Ok(())
}

/// Reads what a world includes, and puts it after the other items.
#[inline(never)]
fn add_include<'a>(
    reader: &mut Reader<'a>,
    attributes: Vec<Attribute<'a>>,
    items: &mut Vec<WorldItem<'a>>,
) -> ReadResult<()>
    ensures reads { OnOk result (Adds (includes_after attributes.entry) reader.old items.old items.new reader.new) }
    ensures stops { IfErr result (Refuses include reader.old) }
{
    let include = read_include(reader, attributes)?;
    add(
        items,
        WorldItem::Include(include),
        reader.at(Kind::CloseBrace),
    )?;
    Ok(())
}

/// Reads a definition, and puts it after the other items.
#[inline(never)]
fn add_definition<'a>(
    reader: &mut Reader<'a>,
    prefix: Prefix<'a>,
    items: &mut Vec<WorldItem<'a>>,
) -> ReadResult<()>
    ensures reads { OnOk result (Adds (definition_after prefix.entry) reader.old items.old items.new reader.new) }
    ensures stops { IfErr result (Refuses definition reader.old) }
{
    let definition = read_definition(reader, prefix)?;
    add(
        items,
        WorldItem::TypeDef(definition),
        reader.at(Kind::CloseBrace),
    )?;
    Ok(())
}

/// Reads an item of a world, and puts it after the others.
///
/// Each sort of item has a function of its own, so that no item takes the room of the others.
#[tactic(auto, unfolding(wit_grammar::specs::ItemRules::world_item))]
fn add_world_item<'a>(reader: &mut Reader<'a>, items: &mut Vec<WorldItem<'a>>) -> ReadResult<()>
    ensures reads { OnOk result (Adds world_item reader.old items.old items.new reader.new) }
    ensures stops { IfErr result (Refuses world_item reader.old) }
{
    let prefix = reader.read_prefix()?;
    if reader.at_word(Word::Use) {
        add_use(reader, prefix.attributes, items)?;
        return Ok(());
    }
    if reader.at_word(Word::Include) {
        add_include(reader, prefix.attributes, items)?;
        return Ok(());
    }
    if at_side(reader) {
        add_side(reader, prefix, items)?;
        return Ok(());
    }
    add_definition(reader, prefix, items)?;
    Ok(())
}

/// Reads the items of a world in braces.
#[tactic(auto, unfolding(wit_grammar::specs::ItemRules::world_items))]
fn read_world_items<'a>(reader: &mut Reader<'a>) -> ReadResult<Vec<WorldItem<'a>>>
    ensures reads { IfOk result (λ it. Reads world_items reader.old (map see_world_item it.items) reader.new) }
    ensures stops { IfErr result (Refuses world_items reader.old) }
{
    reader.expect(Kind::OpenBrace)?;
    let mut items = Vec::new(reader.alloc);
    'items: while !reader.at(Kind::CloseBrace) {
        add_world_item(reader, &mut items)?;
    }
    reader.bump()?;
    Ok(shrunk(items))
}

/// Reads `world name { .. }`.
#[tactic(auto, unfolding(wit_grammar::specs::ItemRules::world_rule))]
pub fn read_world<'a>(reader: &mut Reader<'a>, prefix: Prefix<'a>) -> ReadResult<World<'a>>
    ensures reads { IfOk result (λ it. Reads (world_after prefix.entry) reader.old (see_world it) reader.new) }
    ensures stops { IfErr result (Refuses world_rule reader.old) }
{
    reader.expect_word(Word::World)?;
    let name = reader.read_id()?;
    let items = read_world_items(reader)?;
    Ok(World {
        docs: prefix.docs,
        attributes: prefix.attributes,
        name,
        items,
    })
}
