//! Declared worlds.
ghost use Rattle.std.specs.Prelude.{◌≡◌, None, true, IfOk, IfErr, OnOk, map, length};
ghost use Rattle.std.specs.List.{flat_map};
ghost use Rattle.wit_types.specs.declared.types.TypeOwner.TheVariants.{World as OfWorld};
ghost use Rattle.wit_type_tree.specs.RefusalText.{IsAllocationFailure};
ghost use Rattle.wit_syntax.specs.Function.{part_functions};
ghost use Rattle.wit_syntax.specs.Repeats.{AllDiffer};
ghost use Rattle.wit_syntax.specs.Metadata.{stability_of};
ghost use Rattle.wit_syntax.specs.ScopeTables.{includes};
ghost use Rattle.wit_syntax.specs.Source.{TheWorld, about, local_name, scope_names, world_part};
ghost use Rattle.wit_rules.specs.Signatures.{function_view, AreResults};
ghost use Rattle.wit_scopes.specs.BorrowedNames.{name_view};
ghost use Rattle.wit_items.specs.BorrowedItems.{item_view, IsItemOf};
ghost use Rattle.wit_world_sides.specs.Members.{none_of};
ghost use Rattle.wit_item_entries.specs.AddedNames.{IsTurn};
ghost use Rattle.wit_item_entries.specs.ReachedFaults.{FindsNames};
ghost use Rattle.wit_contents.specs.Making.{IsItemIn, PutsWorld};
ghost use Rattle.wit_contents.specs.Worlds.{AddsAfterNames, AddsNamesOf, AddsTo, AddsDeclaredWorld, HasContent, FindsAfterNames, FindsWorld};

use crate::making::{Growing, Making};
use crate::sides::{has_nothing, walk_sides};
use crate::walk::WorldScope;
use std::alloc::{AllocError, Global};
use wit_entries::entries::Entries;
use wit_item_entries::functions::{world_functions, written_results};
use wit_item_entries::names::{ResolvedNames, resolve_names};
use wit_item_entries::own_keys::have_upper_case;
use wit_item_entries::required::add_required;
use wit_items::items::Item;
use wit_links::includes::resolve_includes;
use wit_links::inside::{declared_name, declared_world};
use wit_links::resolved::Resolved;
use wit_maps::TextTable;
use wit_model::{World, WorldInclude};
use wit_notes::{docs, stability};
use wit_rules::borrowed::BorrowedFunction;
use wit_scopes::scope_name::ScopeName;
use wit_tree::ParseResult;
use wit_tree::tree::{self, Type};
use wit_types::{Stability, TypeOwner};
use wit_values::{Row, Text};
use wit_world_sides::sides::{WorldSides, named_sides};
use wit_world_sides::sides_setters::{is_closed, settle};

/// Adds a declared world, under its name.
fn add_world(resolved: &mut Resolved<'_, '_, '_, '_>, name: &str, world: World) -> ParseResult<()>
    requires { world.name ≡ name.now }
    ensures puts { OnOk result (PutsWorld resolved.old resolved.new world) }
    ensures refused { IfErr result IsAllocationFailure }
{
    let alloc = *resolved.world_names.allocator();
    let place = resolved.worlds.add(world)?;
    let name = String::from_str(alloc, name)?;
    resolved.world_names.put(name, place)?;
    Ok(())
}

/// The names of a world that comes next, and what is in them.
fn world_names<'f, 'a>(
    item: &Item<'f, 'a>,
    types: &mut Entries,
    resolved: &Resolved<'f, 'a, '_, '_>,
) -> ParseResult<ResolvedNames<'a>>
    requires { IsItemOf resolved.now.interfaces.files item.now }
    ensures adds { IfOk result (AddsNamesOf resolved.now item.now types.old types.new) }
    ensures first { FindsNames None resolved.now.interfaces (OfWorld (length resolved.now.worlds)) types.old item.now.names.items result }
{
    let alloc = *resolved.world_names.allocator();
    let owner = TypeOwner::World(resolved.worlds.next_id());
    resolve_names(alloc, &item.names, types, &resolved.interfaces, owner)
}

/// The functions of a world as they are written, and the definitions of its scope that are written as
/// results.
#[derive(Drop)]
struct WrittenFunctions<'f, 'a> {
    functions: Vec<BorrowedFunction<'f, 'a>>,
    results: TextTable<&'f Type<'a>>,
}

/// Those of a world with these names.
fn written_functions<'f, 'a>(
    alloc: Global,
    names: &[ScopeName<'f, 'a>],
    world: &'f tree::World<'a>,
) -> Result<WrittenFunctions<'f, 'a>, AllocError>
    requires { AllDiffer (map local_name (map name_view names.now)) }
    ensures functions { IfOk result (λ w. map function_view w.functions.items ≡ flat_map part_functions (map world_part world.now.items.items)) }
    ensures results { IfOk result (λ w. AreResults w.results (map name_view names.now)) }
{
    let functions = world_functions(alloc, world)?;
    let results = written_results(alloc, names)?;
    Ok(WrittenFunctions { functions, results })
}

/// What a world with these names has on its sides: they are resolved, and its imports and exports come
/// next. Where it includes nothing, it is `closed`.
fn sides_of<'f, 'a>(
    item: &Item<'f, 'a>,
    growing: &mut Growing,
    resolved: &Resolved<'f, 'a, '_, '_>,
    names: ResolvedNames<'a>,
    closed: bool,
) -> ParseResult<WorldSides>
    requires item { IsItemIn resolved.now.interfaces true item.now }
    requires turn { IsTurn (scope_names (item_view item.now)) names.turn.items }
    requires closed { closed ≡ none_of (includes (item_view item.now)) }
    ensures adds { IfOk result (AddsAfterNames resolved.now item.now names.entry growing.old growing.new) }
    ensures first { FindsAfterNames resolved.now item.now names.entry growing.old result }
{
    let alloc = *resolved.world_names.allocator();
    let world = declared_world(&item.declared);
    if has_nothing(world) {
        if !have_upper_case(&names.turn) {
            // Types are no setters, so that all stay where they are.
            let sides = named_sides(alloc, &names.turn, &names.types, 0, 0)?;
            return Ok(sides);
        }
    }
    let written = written_functions(alloc, &item.names, world)?;
    let scope = WorldScope {
        names,
        results: written.results,
        functions: written.functions,
        resolved,
        closed,
    };
    let walked = walk_sides(item, &scope, growing)?;
    let sides = settle(alloc, walked.members, closed)?;
    Ok(sides)
}

/// A world with what is stated of it, what it has on its sides, and these includes.
fn world_with(
    alloc: Global,
    written: &tree::World<'_>,
    stability: Stability,
    sides: WorldSides,
    includes: Row<WorldInclude>,
) -> ParseResult<World>
    requires { stability ≡ stability_of written.now.attributes.items }
    ensures is { IfOk result (HasContent (TheWorld written.now) sides includes) }
    ensures refused { IfErr result IsAllocationFailure }
{
    let name = Text::from_str(alloc, written.name.name)?;
    let docs = docs(alloc, &written.docs)?;
    Ok(World {
        name,
        imports: sides.imports.shrunk(),
        exports: sides.exports.shrunk(),
        package: None,
        docs,
        stability,
        includes,
        span: written.name.span,
    })
}

/// The world of an item, with what is stated of it, its names, and what is in them, its includes, and what
/// it imports and exports.
fn world_of<'f, 'a>(
    item: &Item<'f, 'a>,
    growing: &mut Growing,
    resolved: &Resolved<'f, 'a, '_, '_>,
) -> ParseResult<World>
    requires { IsItemIn resolved.now.interfaces true item.now }
    ensures named { IfOk result (λ w. w.name ≡ (about (item_view item.now).declared).id.name.now) }
    ensures adds { IfOk result (AddsTo resolved.now item.now growing.old growing.new) }
    ensures first { FindsWorld resolved.now growing.old item.now result }
{
    let alloc = *resolved.world_names.allocator();
    let world = declared_world(&item.declared);
    let stability = stability(alloc, &world.attributes)?;
    let names = world_names(item, &mut growing.types, resolved)?;
    add_required(&mut growing.required, &names.required)?;
    let includes = resolve_includes(alloc, resolved, world, item.place)?;
    let closed = is_closed(includes.as_slice());
    let sides = sides_of(item, growing, resolved, names, closed)?;
    world_with(alloc, world, stability, sides, includes)
}

/// Adds a world with what it has.
pub(crate) fn resolve_world<'f, 'a>(
    item: &Item<'f, 'a>,
    making: &mut Making<'f, 'a, '_, '_>,
) -> ParseResult<()>
    requires { IsItemIn making.old.resolved.interfaces true item.now }
    ensures adds { OnOk result (AddsDeclaredWorld making.old making.new item.now) }
    ensures first { FindsWorld making.old.resolved making.old.growing item.now result }
{
    let world = world_of(item, &mut making.growing, &making.resolved)?;
    let id = declared_name(&item.declared);
    add_world(&mut making.resolved, id.name, world)
}
