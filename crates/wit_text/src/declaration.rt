//! Reading declarations, and whether a nested package is in the place of one.
ghost use Rattle.std.specs.Prelude.{IfOk, IfErr};
ghost use Rattle.wit_grammar.specs.Seen.{see_interface};
ghost use Rattle.wit_grammar.specs.ItemRules.{interface_rule};
ghost use Rattle.wit_reader.specs.Reading.{Reads, Refuses};
ghost use Rattle.wit_text.specs.After.{interface_after};
ghost use Rattle.wit_text.specs.Packages.{ReadsItem, RefusesItem};

use crate::world::read_world;
use wit_interface_reader::definition::read_interface_items;
use wit_lex::fault::ReadResult;
use wit_lex::word::Word;
use wit_reader::before_item::Prefix;
use wit_reader::reader::Reader;
use wit_tree::tree::{AstItem, Docs, Interface};

/// What is among the items of a file or of a nested package.
#[derive(Drop)]
pub enum PackageItem<'a> {
    Declaration(AstItem<'a>),
    /// The docs of a nested package. The token after them is its word `package`.
    Package(Docs<'a>),
}

/// Reads `interface name { .. }`.
#[tactic(auto, unfolding(wit_grammar::specs::ItemRules::interface_rule))]
fn read_interface<'a>(reader: &mut Reader<'a>, prefix: Prefix<'a>) -> ReadResult<Interface<'a>>
    ensures reads { IfOk result (λ it. Reads (interface_after prefix.entry) reader.old (see_interface it) reader.new) }
    ensures stops { IfErr result (Refuses interface_rule reader.old) }
{
    reader.expect_word(Word::Interface)?;
    let name = reader.read_id()?;
    let items = read_interface_items(reader)?;
    Ok(Interface {
        docs: prefix.docs,
        attributes: prefix.attributes,
        name,
        items,
    })
}

/// Reads a declaration (an interface, a world, or another name for an item), or the docs of a
/// nested package, which may have no attributes.
pub fn read_package_item<'a>(reader: &mut Reader<'a>) -> ReadResult<PackageItem<'a>>
    ensures reads { IfOk result (λ it. ReadsItem reader.old it reader.new) }
    ensures stops { IfErr result (RefusesItem reader.old) }
{
    let docs = reader.read_docs()?;
    if reader.at_word(Word::Package) {
        return Ok(PackageItem::Package(docs));
    }
    let attributes = reader.read_attributes()?;
    let prefix = Prefix { docs, attributes };
    if reader.at_word(Word::Use) {
        let used = reader.read_toplevel_use(prefix.attributes)?;
        return Ok(PackageItem::Declaration(AstItem::Use(used)));
    }
    if reader.at_word(Word::World) {
        let world = read_world(reader, prefix)?;
        return Ok(PackageItem::Declaration(AstItem::World(world)));
    }
    let interface = read_interface(reader, prefix)?;
    Ok(PackageItem::Declaration(AstItem::Interface(interface)))
}
