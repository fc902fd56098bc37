//! Includes of worlds.
ghost use Rattle.std.specs.Prelude.{◌≡◌, ◌<◌, ◌++◌, IfOk, codes, length, map, string_bytes};
ghost use Rattle.std.specs.Option.{option_copied};
ghost use Rattle.wit_syntax.specs.Source.{leads, TheWorld, IncludePart, about};
ghost use Rattle.wit_first.specs.First.{Finds};
ghost use Rattle.wit_arena.specs.Whole.{renamed};
ghost use Rattle.wit_arena.specs.Resolving.{AreIncludes};
ghost use Rattle.wit_files.specs.FileNames.{top_at};
ghost use Rattle.wit_items.specs.ItemPaths.{HasItem, world_at, world_entry, item_in, HasAmong};
ghost use Rattle.wit_links.specs.Links.{IsInclude, addresses_of, included_fault, includes_fault};

use crate::resolved::Resolved;
use std::alloc::{AllocError, Global};
use wit_items::resolved_path::entry_of;
use wit_model::{AstItem as Entry, IncludeName, WorldInclude};
use wit_notes::attributes::check_stability;
use wit_notes::{path_id, stated_stability};
use wit_refusals::refusal::refuse_in;
use wit_top_names::Target;
use wit_top_names::declaration::world_items;
use wit_tree::ParseResult;
use wit_tree::tree::{self, UsePath};
use wit_types::WorldId;
use wit_values::{Row, Text};

/// What an include renames.
fn renames(alloc: Global, names: &[tree::IncludeName<'_>]) -> Result<Row<IncludeName>, AllocError>
    ensures { IfOk result (λ ns. ns ≡ map renamed names.now) }
{
    let mut renames = Vec::with_capacity(alloc, names.len())?;
    for name in names {
        renames.push(IncludeName {
            name: Text::from_str(alloc, name.name.name)?,
            as_: Text::from_str(alloc, name.as_.name)?,
        })?;
    }
    Ok(Row::from(renames))
}

/// The words for an include of an interface.
fn not_a_world(alloc: Global, name: &str) -> Result<String, AllocError>
    ensures { IfOk result (λ w. string_bytes w ≡ codes "name `" ++ (name.now ++ codes "` is defined as an interface, not a world")) }
{
    format!(in alloc; "name `{name}` is defined as an interface, not a world")
}

/// The world that an entry is; none where there is no entry, or an interface's.
fn world_of(entry: Option<&Entry>) -> Option<WorldId>
    ensures { result ≡ world_entry (option_copied entry.entry) }
{
    match entry {
        Some(Entry::World(id)) => Some(*id),
        Some(Entry::Interface(_)) => None,
        None => None,
    }
}

/// The world that a path in the file at a place leads to; none where that is no world.
fn included_world<'f, 'a>(
    resolved: &Resolved<'f, 'a, '_, '_>,
    place: usize,
    path: &'f UsePath<'a>,
) -> Option<WorldId>
    requires within { place < length resolved.now.interfaces.files }
    ensures { result ≡ world_at resolved.now.interfaces.files resolved.now.world_names (leads (top_at resolved.now.interfaces.files place) path.now) }
{
    match resolved.interfaces.files.target(place, path) {
        Target::Local(id) => match resolved.world_names.get(id.name) {
            Some(id) => Some(*id),
            None => None,
        },
        Target::Foreign { .. } => world_of(entry_of(&resolved.interfaces.files, place, path)),
    }
}

/// An include in the file at a place; refuses attributes that break a rule of stability, and then an
/// include of an interface.
fn resolve_include<'f, 'a>(
    alloc: Global,
    resolved: &Resolved<'f, 'a, '_, '_>,
    place: usize,
    include: &'f tree::Include<'a>,
) -> ParseResult<WorldInclude>
    requires part { HasAmong resolved.now.interfaces.files place (λ d. (about d).parts) (IncludePart include.now) }
    ensures is { IfOk result (IsInclude resolved.now (top_at resolved.now.interfaces.files place) include.now) }
    ensures first { Finds (included_fault resolved.now (top_at resolved.now.interfaces.files place) include.now) result }
{
    check_stability(alloc, &include.attributes)?;
    let path = path_id(&include.from);
    let id = match included_world(resolved, place, &include.from) {
        Some(id) => id,
        None => return Err(refuse_in(11, path.span, not_a_world(alloc, path.name))),
    };
    let names = renames(alloc, &include.names)?;
    let stability = stated_stability(alloc, &include.attributes)?;
    Ok(WorldInclude {
        stability,
        id,
        names,
        span: path.span,
    })
}

/// How many includes a world has.
fn include_count(world: &tree::World<'_>) -> usize {
    let mut count: usize = 0;
    for part in world_items(world) {
        if let tree::WorldItem::Include(_) = part {
            count = count.saturating_add(1);
        }
    }
    count
}

/// The includes of a declared world.
pub fn resolve_includes<'f, 'a>(
    alloc: Global,
    resolved: &Resolved<'f, 'a, '_, '_>,
    world: &'f tree::World<'a>,
    place: usize,
) -> ParseResult<Row<WorldInclude>>
    requires item { HasItem resolved.now.interfaces.files place (TheWorld world.now) }
    ensures are { IfOk result (AreIncludes (addresses_of resolved.now) (item_in resolved.now.interfaces.files place (TheWorld world.now))) }
    ensures first { Finds (includes_fault resolved.now (item_in resolved.now.interfaces.files place (TheWorld world.now))) result }
{
    let mut includes = Vec::with_capacity(alloc, include_count(world))?;
    for part in world_items(world) {
        if let tree::WorldItem::Include(include) = part {
            let include = resolve_include(alloc, resolved, place, include)?;
            includes.push(include)?;
        }
    }
    Ok(Row::from(includes))
}
