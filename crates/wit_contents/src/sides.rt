//! What a world has on its sides: the names of its scope, and after them what it imports and exports.
ghost use Rattle.std.specs.Prelude.{◌≡◌, IfOk};
ghost use Rattle.std.specs.List.{list_all};
ghost use Rattle.wit_contents.specs.Walk.{AddsSidesOf, IsWalk, puts_nothing, walk_of};
ghost use Rattle.wit_contents.specs.Worlds.{FindsSides};

use crate::making::Growing;
use crate::walk::{Walked, WorldScope, walk_parts};
use wit_items::items::Item;
use wit_links::inside::{Seen, declared_world};
use wit_notes::is_same_side;
use wit_rules::borrowed::BorrowedFunction;
use wit_top_names::declaration::world_items;
use wit_tree::ParseResult;
use wit_tree::tree::{Extern, ExternKind, Id, TypeBody, World, WorldItem, WorldSide};
use wit_world_sides::members::named_members;
use wit_world_sides::sides_setters::check_closed;

/// How many of these functions are on a side.
fn function_count(functions: &[BorrowedFunction<'_, '_>], side: WorldSide) -> usize {
    let mut count: usize = 0;
    for borrowed in functions {
        if is_same_side(borrowed.side(), side) {
            count = count.saturating_add(1);
        }
    }
    count
}

/// Whether it is an interface that is imported or exported on a side.
fn is_interface_on(written: &Extern<'_>, side: WorldSide) -> bool {
    match &written.kind {
        ExternKind::Func(_, _) => false,
        ExternKind::Interface(_, _) | ExternKind::Path(_) | ExternKind::NamedPath(_, _) => {
            is_same_side(written.side, side)
        }
    }
}

/// How much a world with these functions has on a side, after the names of its types.
fn side_room<'f, 'a>(
    functions: &[BorrowedFunction<'f, 'a>],
    world: &'f World<'a>,
    side: WorldSide,
) -> usize {
    let mut count = function_count(functions, side);
    for part in world_items(world) {
        if let WorldItem::Extern(written) = part {
            if is_interface_on(written, side) {
                count = count.saturating_add(1);
            }
        }
    }
    count
}

/// Whether a part of a world puts nothing on a side, after the names of its types.
fn puts_nothing(part: &WorldItem<'_>) -> bool
    ensures { result ≡ puts_nothing part.now }
{
    match part {
        WorldItem::TypeDef(definition) => match &definition.body {
            TypeBody::Resource { funcs } => funcs.len() == 0,
            _ => true,
        },
        WorldItem::Use(_) => true,
        WorldItem::Include(_) => true,
        WorldItem::Extern(_) => false,
    }
}

/// Whether a world has nothing on its sides, after the names of its types.
pub(crate) fn has_nothing(world: &World<'_>) -> bool
    ensures { result ≡ list_all puts_nothing world.now.items.items }
{
    world_items(world).iter().all(|part| puts_nothing(part))
}

/// What is on the sides of a world, after the names of its scope, which are resolved. Where it includes
/// nothing, each setter has its getter on its side.
///
/// A refusal is E17 at a name of a type whose folded key an earlier one has, one of what is there, or
/// E18 at a setter without its getter.
pub fn walk_sides<'f, 'a>(
    item: &Item<'f, 'a>,
    scope: &WorldScope<'f, 'a, '_, '_, '_>,
    growing: &mut Growing,
) -> ParseResult<Walked>
    requires { IsWalk (walk_of item.now scope.now) }
    ensures adds { IfOk result (AddsSidesOf item.now scope.now growing.old growing.new) }
    ensures first { FindsSides (walk_of item.now scope.now) growing.old result }
{
    let alloc = *scope.resolved.interfaces.by_name.allocator();
    let turn: &[Id<'_>] = &scope.names.turn;
    let world = declared_world(&item.declared);
    let functions: &[BorrowedFunction<'_, '_>] = &scope.functions;
    let imports = side_room(functions, world, WorldSide::Imported);
    let exports = side_room(functions, world, WorldSide::Exported);
    let members = named_members(alloc, turn, &scope.names.types, imports, exports)?;
    let mut walked = Walked {
        members,
        seen: Seen::none(),
    };
    walk_parts(item, scope, growing, &mut walked)?;
    check_closed(scope.closed, functions, &walked.members.in_use, turn)?;
    Ok(walked)
}
