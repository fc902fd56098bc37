//! What a world imports and exports, in source order: each is resolved, checked and put on its side.
ghost use Rattle.std.specs.Prelude.{◌≡◌, ◌+◌, ◌++◌, ◌∷◌, [], IfOk, OnOk, length, map};
ghost use Rattle.wit_syntax.specs.Function.{side_function, resource_function};
ghost use Rattle.wit_syntax.specs.Sides.{extern_items, side_items, SideFunction, SideLink, part_items};
ghost use Rattle.wit_syntax.specs.Source.{DefinitionPart};
ghost use Rattle.wit_first.specs.First.{Finds};
ghost use Rattle.wit_rules.specs.Signatures.{function_view};
ghost use Rattle.wit_items.specs.BorrowedItems.{item_view, scope_item};
ghost use Rattle.wit_world_sides.specs.Members.{path_link};
ghost use Rattle.wit_links.specs.Links.{inline_side, IsSeen};
ghost use Rattle.wit_contents.specs.Interfaces.{FindsInterface, IsLent};
ghost use Rattle.wit_contents.specs.Walk.{FindsMembers, AddsItems, IsInsideNext, IsNext, PutsInline, inline_fault, next_place, stage, walk_of, AddsInside};

use crate::interface::interface_of;
use crate::making::Growing;
use std::alloc::{AllocError, Global};
use wit_item_entries::names::ResolvedNames;
use wit_items::interfaces::Interfaces;
use wit_items::items::{Declared, InlineInterface, Inside, Item, ItemScope};
use wit_links::inside::{Seen, declared_world};
use wit_links::links::linked_id;
use wit_links::resolved::Resolved;
use wit_maps::TextTable;
use wit_model::Interface;
use wit_notes::check_metadata;
use wit_rules::borrowed::BorrowedFunction;
use wit_rules::function_scope::FunctionScope;
use wit_signatures::functions::resolve_function;
use wit_top_names::declaration::world_items;
use wit_tree::ParseResult;
use wit_tree::tree::{
    Extern, ExternKind, Func, Id, ResourceFunc, Type, TypeBody, TypeDef, WorldItem,
};
use wit_types::{Arena, InterfaceId, InterfacePlace};
use wit_world_sides::members::{Members, PathExtern, put_function, put_inline, put_link};

/// What a world is walked over in: its names, which are resolved, the definitions that are written as
/// results, its functions as they are written, and what is resolved. Where it includes nothing, it is
/// `closed`.
#[derive(Drop)]
pub struct WorldScope<'f, 'a, 'i, 'n, 'e> {
    pub names: ResolvedNames<'a>,
    pub results: TextTable<&'f Type<'a>>,
    pub functions: Vec<BorrowedFunction<'f, 'a>>,
    pub resolved: &'i Resolved<'f, 'a, 'n, 'e>,
    pub closed: bool,
}

/// What is on the sides of a world so far.
#[derive(Drop)]
pub struct Walked {
    pub members: Members,
    /// How many functions and inline interfaces there are.
    pub seen: Seen,
}

/// The id of the next inline interface: after all declared ones, and those before it.
fn next_inside(
    interfaces: &Interfaces<'_, '_, '_, '_>,
    inside: &Arena<Interface, InterfacePlace>,
) -> Result<InterfaceId, AllocError>
    ensures { IfOk result (λ id. id ≡ length interfaces.now.arena + length inside.now) }
{
    match interfaces.arena.id_after(inside.len()) {
        Some(id) => Ok(id),
        None => Err(AllocError),
    }
}

/// Adds an inline interface, after those before it, which come after all declared ones.
fn resolve_inline<'f, 'a>(
    scope: &ItemScope<'f, 'a, '_>,
    growing: &mut Growing,
    resolved: &Resolved<'f, 'a, '_, '_>,
) -> ParseResult<InterfaceId>
    requires { IsLent scope.now resolved.now.interfaces.files (scope_item scope.now) }
    ensures id { IfOk result (λ id. id ≡ next_place resolved.now.interfaces growing.old.inside) }
    ensures adds { OnOk result (AddsInside resolved.now.interfaces growing.old growing.new (scope_item scope.now)) }
    ensures first { FindsInterface resolved.now.interfaces (next_place resolved.now.interfaces growing.old.inside) growing.old.types scope.now result }
{
    let id = next_inside(&resolved.interfaces, &growing.inside)?;
    let interface = interface_of(scope, growing, resolved, id)?;
    growing.inside.add(interface)?;
    Ok(id)
}

/// Resolves the next function, and puts it on its side.
///
/// A refusal is one of `resolve_function` or of `put_function`.
fn walk_function<'f, 'a>(
    item: &Item<'f, 'a>,
    walk: &WorldScope<'f, 'a, '_, '_, '_>,
    borrowed: BorrowedFunction<'f, 'a>,
    growing: &mut Growing,
    walked: &mut Walked,
) -> ParseResult<()>
    requires { IsNext (walk_of item.now walk.now) (SideFunction (function_view borrowed) ∷ []) walked.old }
    ensures adds { OnOk result (AddsItems item.now walk.now (SideFunction (function_view borrowed.entry) ∷ []) growing.old walked.old growing.new walked.new) }
    ensures first { FindsMembers (walk_of item.now walk.now) (SideFunction (function_view borrowed.entry) ∷ []) (stage growing.old walked.old) result }
{
    let alloc = *walk.resolved.interfaces.by_name.allocator();
    let place = walked.seen.functions;
    let scope = FunctionScope {
        names: &walk.names.types,
        results: &walk.results,
        functions: &walk.functions,
    };
    let function = resolve_function(
        alloc,
        scope,
        &mut growing.types,
        &mut growing.required,
        place,
    )?;
    put_function(&mut walked.members, borrowed, function)?;
    let seen = walked.seen.with_function()?;
    walked.seen = seen;
    Ok(())
}

/// Checks the next import or export of an interface by its path, and puts it on its side.
///
/// A refusal is E30 to E35, where its attributes break a rule, one of `linked_id`, or of `put_link`.
fn walk_link<'f, 'a>(
    item: &Item<'f, 'a>,
    walk: &WorldScope<'f, 'a, '_, '_, '_>,
    link: PathExtern<'f, 'a>,
    walked: &mut Walked,
) -> ParseResult<()>
    requires { IsNext (walk_of item.now walk.now) (SideLink (path_link link) ∷ []) walked.old }
    ensures adds { OnOk result ((g : _) → AddsItems item.now walk.now (SideLink (path_link link.entry) ∷ []) g walked.old g walked.new) }
    ensures first { (g : _) → FindsMembers (walk_of item.now walk.now) (SideLink (path_link link.entry) ∷ []) (stage g walked.old) result }
{
    let alloc = *walk.resolved.interfaces.by_name.allocator();
    check_metadata(alloc, &link.written.attributes)?;
    let id = linked_id(alloc, &walk.resolved.interfaces, item.place, link.path)?;
    put_link(alloc, &mut walked.members, link, id)
}

/// Puts an inline interface that is resolved on its side, under its name.
///
/// A refusal is E30 to E35, where its attributes break a rule; or one of `put_inline`.
fn put_resolved(
    alloc: Global,
    inline: &InlineInterface<'_, '_>,
    walked: &mut Walked,
    id: InterfaceId,
) -> ParseResult<()>
    ensures seen { OnOk result ((xs : _) → IsSeen xs walked.old.seen → IsSeen (xs ++ inline_side inline.now ∷ []) walked.new.seen) }
    ensures puts { OnOk result (PutsInline walked.old walked.new inline.now id) }
    ensures first { Finds (inline_fault walked.old inline.now) result }
{
    check_metadata(alloc, &inline.written.attributes)?;
    put_inline(alloc, &mut walked.members, inline.written, inline.name, id)?;
    let seen = walked.seen.with_inline(inline.written.side)?;
    walked.seen = seen;
    Ok(())
}

/// Resolves the next inline interface, and puts it on its side, under its name.
///
/// A refusal is one of `interface_of`, or of `put_resolved`.
fn walk_inline<'f, 'a>(
    item: &Item<'f, 'a>,
    walk: &WorldScope<'f, 'a, '_, '_, '_>,
    inside: &Inside<'f, 'a>,
    growing: &mut Growing,
    walked: &mut Walked,
) -> ParseResult<()>
    requires next { IsNext (walk_of item.now walk.now) (inline_side inside.now.inline ∷ []) walked.old }
    requires there { IsInsideNext item.now inside.now walked.old }
    ensures adds { OnOk result (AddsItems item.now walk.now (inline_side inside.now.inline ∷ []) growing.old walked.old growing.new walked.new) }
    ensures first { FindsMembers (walk_of item.now walk.now) (inline_side inside.now.inline ∷ []) (stage growing.old walked.old) result }
{
    let alloc = *walk.resolved.interfaces.by_name.allocator();
    let scope = ItemScope {
        file: item.file,
        declared: Declared::Inline(inside.inline),
        names: &inside.names,
    };
    let id = resolve_inline(&scope, growing, walk.resolved)?;
    put_resolved(alloc, &inside.inline, walked, id)?;
    Ok(())
}

/// A function that a world imports or exports.
fn extern_part_function<'f, 'a>(
    written: &'f Extern<'a>,
    name: Id<'a>,
    func: &'f Func<'a>,
) -> BorrowedFunction<'f, 'a>
    ensures { function_view result ≡ side_function written.now.side written.now.docs written.now.attributes.items name.entry func.now }
{
    BorrowedFunction::Across(written.side, &written.docs, &written.attributes, name, func)
}

/// Resolves what a world imports or exports next, by its kind.
fn walk_extern<'f, 'a>(
    item: &Item<'f, 'a>,
    walk: &WorldScope<'f, 'a, '_, '_, '_>,
    written: &'f Extern<'a>,
    growing: &mut Growing,
    walked: &mut Walked,
) -> ParseResult<()>
    requires { IsNext (walk_of item.now walk.now) (extern_items written.now written.now.kind) walked.old }
    ensures adds { OnOk result (AddsItems item.now walk.now (extern_items written.now written.now.kind) growing.old walked.old growing.new walked.new) }
    ensures first { FindsMembers (walk_of item.now walk.now) (extern_items written.now written.now.kind) (stage growing.old walked.old) result }
{
    match &written.kind {
        ExternKind::Interface(_, _) => {
            let there = item.inside(written.side);
            let next = walked.seen.on(written.side);
            walk_inline(item, walk, &there[next], growing, walked)
        }
        ExternKind::Func(name, func) => {
            let borrowed = extern_part_function(written, *name, func);
            walk_function(item, walk, borrowed, growing, walked)
        }
        ExternKind::Path(path) => {
            let name = None;
            let link = PathExtern {
                written,
                name,
                path,
            };
            walk_link(item, walk, link, walked)
        }
        ExternKind::NamedPath(name, path) => {
            let name = Some(*name);
            let link = PathExtern {
                written,
                name,
                path,
            };
            walk_link(item, walk, link, walked)
        }
    }
}

/// The functions of a resource; none of another definition.
fn resource_functions<'t, 'a>(definition: &'t TypeDef<'a>) -> &'t [ResourceFunc<'a>]
    ensures { part_items (DefinitionPart definition.now) ≡ map SideFunction (map (resource_function definition.now.name) result.now) }
{
    match &definition.body {
        TypeBody::Resource { funcs } => funcs,
        _ => &[],
    }
}

/// Resolves the functions of a definition, which come next: those of a resource.
fn walk_definition<'f, 'a>(
    item: &Item<'f, 'a>,
    walk: &WorldScope<'f, 'a, '_, '_, '_>,
    definition: &'f TypeDef<'a>,
    growing: &mut Growing,
    walked: &mut Walked,
) -> ParseResult<()>
    requires { IsNext (walk_of item.now walk.now) (part_items (DefinitionPart definition.now)) walked.old }
    ensures adds { OnOk result (AddsItems item.now walk.now (part_items (DefinitionPart definition.now)) growing.old walked.old growing.new walked.new) }
    ensures first { FindsMembers (walk_of item.now walk.now) (part_items (DefinitionPart definition.now)) (stage growing.old walked.old) result }
{
    for function in resource_functions(definition) {
        let borrowed = BorrowedFunction::Of(definition.name, function);
        walk_function(item, walk, borrowed, growing, walked)?;
    }
    Ok(())
}

/// Resolves all that is on the sides of a world, in source order.
pub(crate) fn walk_parts<'f, 'a>(
    item: &Item<'f, 'a>,
    walk: &WorldScope<'f, 'a, '_, '_, '_>,
    growing: &mut Growing,
    walked: &mut Walked,
) -> ParseResult<()>
    requires { IsNext (walk_of item.now walk.now) (side_items (item_view item.now)) walked.old }
    ensures adds { OnOk result (AddsItems item.now walk.now (side_items (item_view item.now)) growing.old walked.old growing.new walked.new) }
    ensures first { FindsMembers (walk_of item.now walk.now) (side_items (item_view item.now)) (stage growing.old walked.old) result }
{
    let world = declared_world(&item.declared);
    for part in world_items(world) {
        match part {
            WorldItem::TypeDef(definition) => walk_definition(
                item, walk, definition, growing, walked,
            )?,
            WorldItem::Use(_) => {}
            WorldItem::Include(_) => {}
            WorldItem::Extern(written) => walk_extern(item, walk, written, growing, walked)?,
        }
    }
    Ok(())
}
