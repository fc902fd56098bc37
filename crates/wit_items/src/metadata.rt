//! What is stated of a declared item: its docs, and how stable it is.
ghost use Rattle.std.specs.Prelude.{◌≡◌, IfOk};
ghost use Rattle.wit_first.specs.AttributeFaults.{stability_fault};
ghost use Rattle.wit_first.specs.First.{Finds};
ghost use Rattle.wit_syntax.specs.Metadata.{docs_of, stability_of};
ghost use Rattle.wit_syntax.specs.Source.{declared_metadata, about};
ghost use Rattle.wit_items.specs.BorrowedItems.{declared_view, AreOf};

use crate::items::Declared;
use std::alloc::Global;
use wit_notes::{docs, stability};
use wit_tree::ParseResult;
use wit_tree::tree::{self, Attribute};
use wit_types::{Docs, Stability};

/// What is stated of an item, but for its name elsewhere.
#[derive(Drop)]
pub struct ItemMetadata {
    pub docs: Docs,
    pub stability: Stability,
}

/// What docs and attributes say of an item.
fn as_stated(
    alloc: Global,
    comments: &tree::Docs<'_>,
    attributes: &[Attribute<'_>],
) -> ParseResult<ItemMetadata>
    ensures docs { IfOk result (λ n. n.docs ≡ docs_of comments.now) }
    ensures stability { IfOk result (λ n. n.stability ≡ stability_of attributes.now) }
    ensures first { Finds (stability_fault attributes.now) result }
{
    let stability = stability(alloc, attributes)?;
    let docs = docs(alloc, comments)?;
    Ok(ItemMetadata { docs, stability })
}

/// What is stated of an item; refuses attributes that break a rule of stability.
pub fn item_metadata(alloc: Global, declared: &Declared<'_, '_>) -> ParseResult<ItemMetadata>
    ensures as_stated { IfOk result (AreOf (declared_metadata (declared_view declared.now))) }
    ensures first { Finds (stability_fault (about (declared_view declared.now)).attributes) result }
{
    match declared {
        Declared::Interface(interface) => as_stated(alloc, &interface.docs, &interface.attributes),
        Declared::World(world) => as_stated(alloc, &world.docs, &world.attributes),
        Declared::Inline(inline) => {
            as_stated(alloc, &inline.written.docs, &inline.written.attributes)
        }
    }
}
