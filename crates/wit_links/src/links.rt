//! Where the paths lead by which a world imports and exports interfaces, once all interfaces are resolved.
ghost use Rattle.std.specs.Prelude.{IfOk};
ghost use Rattle.wit_first.specs.First.{Finds};
ghost use Rattle.wit_files.specs.FileNames.{top_at};
ghost use Rattle.wit_items.specs.ItemPaths.{HasPath};
ghost use Rattle.wit_links.specs.Links.{IsLinkedTo, linked_fault};

use std::alloc::Global;
use wit_items::interfaces::Interfaces;
use wit_items::resolved_path::{path_source, source_id};
use wit_tree::ParseResult;
use wit_tree::tree::UsePath;
use wit_types::InterfaceId;

/// The interface that a path of an item of the file at a place leads to.
///
/// Refuses a path that leads to no item, or to an interface that is not resolved (7), or to a world (10).
pub fn linked_id<'f, 'a>(
    alloc: Global,
    interfaces: &Interfaces<'f, 'a, '_, '_>,
    place: usize,
    path: &'f UsePath<'a>,
) -> ParseResult<InterfaceId>
    requires path { HasPath interfaces.now.files place path.now }
    ensures leads { IfOk result (IsLinkedTo interfaces.now.files interfaces.now.by_name (top_at interfaces.now.files place) path.now) }
    ensures first { Finds (linked_fault interfaces.now.files interfaces.now.by_name (top_at interfaces.now.files place) path.now) result }
{
    let source = path_source(alloc, &interfaces.files, place, path)?;
    source_id(alloc, interfaces, &source)
}
