//! What the files of a package make: its arenas, and what it names of other packages.
ghost use Rattle.std.specs.Prelude.{◌≡◌, IfOk, IfErr, Ok};
ghost use Rattle.wit_type_tree.specs.RefusalText.{IsAllocationFailure};
ghost use Rattle.wit_syntax.specs.Broken.{IsBrokenNames};
ghost use Rattle.wit_contents.specs.Files.{FindsAfter, MakeContents, contents_with};

use crate::items::resolve_items;
use crate::making::{Growing, Making, begun, make_room};
use std::alloc::{AllocError, Global};
use wit_entries::entries::Entries;
use wit_files::FileNames;
use wit_foreign::{Packages, foreign_deps};
use wit_front::foreign::ForeignArenas;
use wit_items::files::Files;
use wit_items::items::{Item, declared_items};
use wit_links::resolved::Resolved;
use wit_model::{Arenas, ForeignItems, Interface, World};
use wit_tree::tree::PackageFile;
use wit_tree::{ParseResult, Span};
use wit_types::{Arena, InterfacePlace, WorldPlace};
use wit_values::Row;

/// What files make in the arenas, and what they name of other packages.
#[derive(Drop)]
pub struct Contents {
    pub arenas: Arenas,
    pub foreign: ForeignItems,
}

/// The interfaces and the worlds that were made, and what grew.
fn made_in(
    making: Making<'_, '_, '_, '_>,
) -> (
    Arena<Interface, InterfacePlace>,
    Arena<World, WorldPlace>,
    Growing,
)
    ensures { result ≡ (making.entry.resolved.interfaces.arena, making.entry.resolved.worlds, making.entry.growing) }
{
    let Making { resolved, growing } = making;
    let Resolved {
        interfaces,
        worlds,
        ..
    } = resolved;
    (interfaces.arena, worlds, growing)
}

/// What was made, with the interfaces that are written in worlds after the declared ones, and what is named
/// of other packages, whose types are first used at these spans.
///
/// The error is a failed allocation.
fn contents_of(
    declared: Arena<Interface, InterfacePlace>,
    worlds: Arena<World, WorldPlace>,
    growing: Growing,
    unknown_type_spans: Vec<Span>,
    named: Result<(Packages, Row<Span>), AllocError>,
) -> ParseResult<Contents>
    ensures is { IfOk result (λ c. c ≡ contents_with declared worlds growing c.foreign) }
    ensures deps { IfOk result (λ c. named ≡ Ok (c.foreign.deps, c.foreign.dep_spans)) }
    ensures unknown { IfOk result (λ c. c.foreign.unknown_type_spans ≡ unknown_type_spans.items) }
    ensures required { IfOk result (λ c. c.foreign.required_resource_types ≡ growing.required.items) }
    ensures refused { IfErr result IsAllocationFailure }
{
    let (deps, dep_spans) = named?;
    let Growing {
        types,
        mut inside,
        required,
    } = growing;
    let mut interfaces = declared;
    interfaces.append(&mut inside)?;
    let arenas = Arenas {
        types: types.into_arena(),
        interfaces,
        worlds,
    };
    let foreign = ForeignItems {
        deps,
        dep_spans,
        unknown_type_spans: Row::from(unknown_type_spans),
        required_resource_types: Row::from(required),
    };
    Ok(Contents { arenas, foreign })
}

/// What files with these names make.
fn resolve_named<'f, 'a>(
    alloc: Global,
    names: &FileNames<'f, 'a>,
    files: &'f [PackageFile<'a>],
) -> ParseResult<Contents>
    requires gathered { names.now ≡ files.now }
    requires unbroken { (f : _) → IsBrokenNames names.now f → ⊥ }
    ensures made { IfOk result (MakeContents names.now) }
    ensures first { FindsAfter 6 names.now result }
{
    let order = names.item_order();
    let mut types = Entries::new(alloc);
    // Most items have a type at least.
    types.reserve(order.len())?;
    let mut prefix = ForeignArenas::of_items(alloc, names.foreign(), order.len())?;
    let gathered = Files::of(names, &prefix.entries);
    let mut items = declared_items(alloc, &gathered, files, order.len())?;
    drop(gathered);
    let lent: &mut [Item<'_, '_>] = &mut items;
    ForeignArenas::add_used_by_items(alloc, lent, &mut prefix, &mut types)?;
    let ForeignArenas {
        interfaces,
        mut worlds,
        entries,
        spans,
    } = prefix;
    let mut inside = Arena::new(alloc);
    make_room(lent, &mut inside, &mut worlds)?;
    let required = Vec::new(alloc);
    let growing = Growing {
        types,
        inside,
        required,
    };
    let named = Files::of(names, &entries);
    let mut making = begun(alloc, named, growing, interfaces, worlds);
    let known: &mut Making<'_, '_, '_, '_> = &mut making;
    resolve_items(lent, order, known)?;
    let deps = foreign_deps(alloc, names.foreign_visits());
    let (declared, worlds, growing) = made_in(making);
    let contents = contents_of(declared, worlds, growing, spans, deps)?;
    Ok(contents)
}

/// What files make.
fn resolve_gathered(alloc: Global, files: &[PackageFile<'_>]) -> ParseResult<Contents>
    ensures made { IfOk result (MakeContents files.now) }
    ensures first { FindsAfter 1 files.now result }
{
    let names = FileNames::gather(alloc, files)?;
    let lent: &FileNames<'_, '_> = &names;
    resolve_named(alloc, lent, files)
}

/// What files make, and what they name of other packages. No arena has more room than it needs.
pub fn resolve_contents(alloc: Global, files: &[PackageFile<'_>]) -> ParseResult<Contents>
    ensures made { IfOk result (MakeContents files.now) }
    ensures first { FindsAfter 1 files.now result }
{
    let Contents { arenas, foreign } = resolve_gathered(alloc, files)?;
    let arenas = Arenas {
        types: arenas.types.shrunk(),
        interfaces: arenas.interfaces.shrunk(),
        worlds: arenas.worlds.shrunk(),
    };
    Ok(Contents { arenas, foreign })
}
