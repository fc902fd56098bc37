//! What a path of an item leads to that wants an interface.
ghost use Rattle.std.specs.Prelude.{◌≡◌, ◌<◌, Some, None, length, IfOk};
ghost use Rattle.std.specs.Option.{option_copied};
ghost use Rattle.wit_syntax.specs.Broken.{is_world_at};
ghost use Rattle.wit_syntax.specs.Source.{Local, all_items, leads, path_id};
ghost use Rattle.wit_first.specs.FileFaults.{lost_fault};
ghost use Rattle.wit_first.specs.First.{Finds};
ghost use Rattle.wit_first.specs.UseFaults.{path_fault, reached_fault};
ghost use Rattle.wit_top_names.specs.Tops.{target_view};
ghost use Rattle.wit_files.specs.FileNames.{top_at};
ghost use Rattle.wit_scopes.specs.BorrowedNames.{IsPlaced};
ghost use Rattle.wit_items.specs.ItemPaths.{prefix_of, HasPath, entry_at, source_target};
ghost use Rattle.wit_items.specs.ResolvedInterfaces.{source_place, unresolved_fault};

use crate::files::Files;
use crate::interfaces::Interfaces;
use std::alloc::Global;
use wit_files::Found;
use wit_model::AstItem as Entry;
use wit_notes::path_id;
use wit_refusals::refusal::{refuse_missing, refuse_world};
use wit_scopes::scope_name::Source;
use wit_top_names::Target;
use wit_tree::ParseResult;
use wit_tree::tree::{Id, UsePath};
use wit_types::InterfaceId;

/// The entry of the item of another package that a path leads to; none where it leads to none.
fn entry_there<'e, 'f, 'a>(
    files: &'e Files<'f, 'a, '_, '_>,
    target: Target<'f, 'a>,
) -> Option<&'e Entry>
    ensures { option_copied result ≡ entry_at files.now (target_view target.entry) }
{
    match files.found(target) {
        Some(Found::Foreign(place)) => files.entries().get(place),
        Some(Found::Item(_)) => None,
        None => None,
    }
}

/// The entry of the item of another package that a path in the file at a place leads to; none where
/// it leads to none.
pub fn entry_of<'e, 'f, 'a>(
    files: &'e Files<'f, 'a, '_, '_>,
    place: usize,
    path: &'f UsePath<'a>,
) -> Option<&'e Entry>
    requires within { place < length files.now }
    ensures { option_copied result ≡ entry_at files.now (leads (top_at files.now place) path.now) }
{
    entry_there(files, files.target(place, path))
}

/// The declared interface of a name that a path leads to; refuses the name of no item (7), or of a world (10).
fn named_source<'f, 'a>(
    alloc: Global,
    files: &Files<'f, 'a, '_, '_>,
    path: &UsePath<'a>,
    name: Id<'a>,
) -> ParseResult<Source<'f, 'a>>
    ensures source { IfOk result (λ s. source_target s ≡ Local name.entry) }
    ensures placed { IfOk result (IsPlaced (prefix_of files.now)) }
    ensures first { Finds (reached_fault (is_world_at files.now (Local name.entry)) (path_id path.now) (lost_fault (all_items files.now) (Local name.entry)) None) result }
{
    match files.found(Target::Local(name)) {
        Some(Found::Item(place)) => {
            if files.is_world(place) {
                return Err(refuse_world(alloc, path_id(path)));
            }
            Ok(Source::Declared(name))
        }
        Some(Found::Foreign(_)) => Err(refuse_missing(alloc, 7, "interface or world", name)),
        None => Err(refuse_missing(alloc, 7, "interface or world", name)),
    }
}

/// The interface that a path of an item of the file at a place leads to; refuses one that leads to
/// no item (7), or to a world (10).
pub fn path_source<'f, 'a>(
    alloc: Global,
    files: &Files<'f, 'a, '_, '_>,
    place: usize,
    path: &'f UsePath<'a>,
) -> ParseResult<Source<'f, 'a>>
    requires path { HasPath files.now place path.now }
    ensures source { IfOk result (λ s. source_target s ≡ leads (top_at files.now place) path.now) }
    ensures placed { IfOk result (IsPlaced (prefix_of files.now)) }
    ensures first { Finds (path_fault files.now (top_at files.now place) path.now None) result }
{
    match files.target(place, path) {
        Target::Local(name) => named_source(alloc, files, path, name),
        Target::Foreign { package, name } => {
            let target = Target::Foreign { package, name };
            match entry_there(files, target) {
                Some(Entry::Interface(id)) => Ok(Source::Foreign {
                    place: id.index(),
                    package,
                    name,
                }),
                Some(Entry::World(_)) => Err(refuse_world(alloc, path_id(path))),
                None => Err(refuse_world(alloc, path_id(path))),
            }
        }
    }
}

/// The id of the interface that is borrowed; refuses one that is not resolved (7).
pub fn source_id<'f, 'a>(
    alloc: Global,
    interfaces: &Interfaces<'f, 'a, '_, '_>,
    source: &Source<'f, 'a>,
) -> ParseResult<InterfaceId>
    requires { IsPlaced (prefix_of interfaces.now.files) source.now }
    ensures id { IfOk result (λ id. source_place interfaces.now.by_name source.now ≡ Some id) }
    ensures first { Finds (unresolved_fault interfaces.now.by_name (source_target source.now)) result }
{
    match source {
        Source::Declared(path) => match interfaces.by_name.get(path.name) {
            Some(id) => Ok(*id),
            None => Err(refuse_missing(alloc, 7, "interface or world", *path)),
        },
        Source::Foreign { place, .. } => Ok(interfaces.arena.id_at(*place)),
    }
}
