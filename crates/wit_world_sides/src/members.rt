//! What is on the sides of a world, one after another: its name is defined, or the interface that it is,
//! and then it is put there.
ghost use Rattle.std.specs.Prelude.{◌≡◌, ◌++◌, ◌∷◌, [], true, None, IfOk, IsTrue, OnOk, codes, map};
ghost use Rattle.std.specs.List.{flat_map};
ghost use Rattle.wit_names.specs.Mangled.{is_mangled};
ghost use Rattle.wit_model.specs.declared.world.WorldKey.TheVariants.{Name};
ghost use Rattle.wit_syntax.specs.Repeats.{AllDiffer};
ghost use Rattle.wit_syntax.specs.Sides.{SideFunction, SideInline, names_on};
ghost use Rattle.wit_syntax.specs.Source.{local_id};
ghost use Rattle.wit_first.specs.First.{Finds};
ghost use Rattle.wit_arena.specs.SourceFunctions.{function_item, link_item, inline_entry};
ghost use Rattle.wit_arena.specs.Resolving.{names_in};
ghost use Rattle.wit_arena.specs.Whole.{type_imports as the_imports};
ghost use Rattle.wit_refusals.specs.NameScopes.{AreUsed};
ghost use Rattle.wit_rules.specs.Signatures.{function_view};
ghost use Rattle.wit_sides.specs.SideNames.{only_on, defined_on};
ghost use Rattle.wit_signatures.specs.FunctionsOfScope.{name_of_function, name_of_id, name_of_made};
ghost use Rattle.wit_externs.specs.Clash.{defined_fault, DefinesNames, StayApart, linked_on};
ghost use Rattle.wit_walk.specs.Sorts.{sort_among};
ghost use Rattle.wit_world_sides.specs.Members.{AreKeyed, IsNamedOn, entry_sorted, item_word, path_link, sorted_on, PutsLink, PutsOn, clash_fault, put_fault, put_link_fault, side_fault};
ghost use Rattle.wit_syntax.specs.Words.{side_word};

use crate::sides::{WorldSides, add_item, inline_item, named_sides, path_item};
use std::alloc::Global;
use wit_externs::in_use::define_names;
use wit_externs::links::Links;
use wit_maps::{Table, TextTable};
use wit_model::{Function, WorldItem, WorldKey, get_name};
use wit_notes::path_id;
use wit_refusals::refusal::refuse_in;
use wit_rules::borrowed::BorrowedFunction;
use wit_sides::Sides;
use wit_tree::tree::{Extern, Id, UsePath, WorldSide};
use wit_tree::{ParseResult, Span};
use wit_types::{InterfaceId, TypeId};
use wit_values::Text;

/// What is on the sides of a world so far.
#[derive(Drop)]
pub struct Members {
    /// The names there.
    pub in_use: Sides,
    /// The interfaces there by their paths alone.
    pub links: Links,
    /// The imports and the exports.
    pub sides: WorldSides,
}

/// An interface that a world imports or exports by its path.
#[derive(Clone, Copy)]
pub struct PathExtern<'f, 'a> {
    pub written: &'f Extern<'a>,
    /// The name of its own that it has there, if one.
    pub name: Option<Id<'a>>,
    pub path: &'f UsePath<'a>,
}

/// The word for what is on a side of a world.
fn sort_of(item: &WorldItem) -> &'static str
    ensures { result.now ≡ item_word item.now }
{
    match item {
        WorldItem::Interface { .. } => "interface",
        WorldItem::Function(_) => "func",
        WorldItem::Type_ { .. } => "type",
    }
}

/// The word for what is at a name.
fn sort_at(items: &Table<WorldKey, WorldItem>, name: &str) -> &'static str
    ensures { result.now ≡ sort_among (flat_map entry_sorted items.now) name.now }
{
    match get_name(items, name) {
        Some(item) => sort_of(item),
        None => "func",
    }
}

/// The word for what is on a side under a name.
fn sort_on(sides: &WorldSides, side: WorldSide, name: &str) -> &'static str
    ensures { result.now ≡ sort_among (sorted_on side sides.now) name.now }
{
    match side {
        WorldSide::Imported => sort_at(&sides.imports, name),
        WorldSide::Exported => sort_at(&sides.exports, name),
    }
}

/// The word that means a side.
fn side_word(side: WorldSide) -> &'static str
    ensures { result.now ≡ side_word side }
{
    match side {
        WorldSide::Imported => "import",
        WorldSide::Exported => "export",
    }
}

/// Defines the name of an import or an export on its side, after the others.
///
/// Refused under E44, at the span, where an earlier name of the side is spelled like it, under E17
/// where one has its folded key, and under E45 if an allocation failed.
fn define_extern_part(
    in_use: &mut Sides,
    sides: &WorldSides,
    side: WorldSide,
    name: &str,
    span: Span,
) -> ParseResult<()>
    requires { IsTrue (is_mangled name.now) }
    ensures defined { OnOk result ((s : _) → defined_on s in_use.new ≡ defined_on s in_use.old ++ only_on s side (name.now, span)) }
    ensures free { OnOk result (AreUsed (defined_on side in_use.old) name.now → ⊥) }
    ensures first { Finds (side_fault in_use.old sides.now side true (name.now, span)) result }
{
    match in_use.define(side, name, span) {
        Ok(()) => Ok(()),
        Err(refusal) => {
            if !in_use.has(side, name)? {
                return Err(refusal);
            }
            let alloc = *sides.imports.allocator();
            let word = side_word(side);
            let what = sort_on(sides, side, name);
            let words = format!(in alloc;
                "{word} `{name}` conflicts with prior {what} of same name"
            );
            Err(refuse_in(44, span, words))
        }
    }
}

/// Defines the name of a function on its side.
///
/// Refused under E44, where it is an import or an export and an earlier name of the side is spelled
/// like its own, under E17 where one has its folded key, and under E45 if an allocation failed.
fn define_function(
    in_use: &mut Sides,
    sides: &WorldSides,
    borrowed: BorrowedFunction<'_, '_>,
    function: &Function,
) -> ParseResult<()>
    requires mangled { IsTrue (is_mangled function.now.name) }
    requires borrowed { name_of_made function.now ≡ name_of_function (function_view borrowed) }
    ensures defined { OnOk result (DefinesNames in_use.old in_use.new (SideFunction (function_view borrowed.entry) ∷ [])) }
    ensures differ { OnOk result (StayApart in_use.old in_use.new) }
    ensures first { Finds (clash_fault in_use.old sides.now (SideFunction (function_view borrowed.entry))) result }
{
    let name = function.name.as_str();
    match borrowed.across() {
        None => in_use.define(WorldSide::Imported, name, function.span),
        Some(side) => define_extern_part(in_use, sides, side, name, function.span),
    }
}

/// Puts a function at its name on its side, after the others.
///
/// Refused under E44, where it is an import or an export and an earlier name of the side is spelled
/// like its own, under E17 where one has its folded key, and under E45 if an allocation failed.
pub fn put_function(
    members: &mut Members,
    borrowed: BorrowedFunction<'_, '_>,
    function: Function,
) -> ParseResult<()>
    requires mangled { IsTrue (is_mangled function.name) }
    requires borrowed { name_of_made function ≡ name_of_function (function_view borrowed) }
    ensures puts { OnOk result (PutsOn members.old members.new (SideFunction (function_view borrowed.entry)) (function_item function)) }
    ensures first { Finds (put_fault members.old (SideFunction (function_view borrowed.entry))) result }
{
    define_function(&mut members.in_use, &members.sides, borrowed, &function)?;
    let key = WorldKey::Name(function.name.clone()?);
    let item = WorldItem::Function(function);
    add_item(&mut members.sides, borrowed.side(), key, item)?;
    Ok(())
}

/// Puts an interface on a side, under a name, after the others.
///
/// Refused under E44, where an earlier name of the side is spelled like it, under E17 where one has its
/// folded key, and under E45 if an allocation failed.
fn put_named(
    alloc: Global,
    members: &mut Members,
    side: WorldSide,
    name: Id<'_>,
    item: WorldItem,
) -> ParseResult<()>
    requires { item_word item ≡ codes "interface" }
    ensures puts { OnOk result ((x : _) → IsNamedOn side name.entry x → PutsOn members.old members.new x (Name name.entry.name.now, item)) }
    ensures first { Finds (side_fault members.old.in_use members.old.sides side true (name_of_id name.entry)) result }
{
    define_extern_part(
        &mut members.in_use,
        &members.sides,
        side,
        name.name,
        name.span,
    )?;
    let key = WorldKey::Name(Text::from_str(alloc, name.name)?);
    add_item(&mut members.sides, side, key, item)?;
    Ok(())
}

/// Puts an interface that has no name of its own on its side, as itself, after the others.
///
/// Refused under E43, at its path, where the side has it, and under E45 if an allocation failed.
fn put_bare(
    alloc: Global,
    members: &mut Members,
    link: PathExtern<'_, '_>,
    id: InterfaceId,
    item: WorldItem,
) -> ParseResult<()>
    requires bare { link.name ≡ None }
    requires interface { item ≡ (link_item (path_link link) id).1 }
    ensures puts { OnOk result (PutsLink members.old members.new link.entry id) }
    ensures first { Finds (put_link_fault members.old (path_link link.entry) id) result }
{
    let side = link.written.side;
    let path = path_id(link.path);
    members.links.define(alloc, side, id.index(), path.span)?;
    add_item(&mut members.sides, side, WorldKey::Interface(id), item)?;
    Ok(())
}

/// Puts an interface on its side: under its name, where it has one of its own, else as itself. Its
/// attributes were checked.
///
/// A refusal is E44 or E17 at its name, or E43 at its path, where the side has that already; or a
/// failed allocation.
pub fn put_link(
    alloc: Global,
    members: &mut Members,
    link: PathExtern<'_, '_>,
    id: InterfaceId,
) -> ParseResult<()>
    ensures puts { OnOk result (PutsLink members.old members.new link.entry id) }
    ensures first { Finds (put_link_fault members.old (path_link link.entry) id) result }
{
    let item = path_item(alloc, link, id)?;
    match link.name {
        Some(name) => put_named(alloc, members, link.written.side, name, item),
        None => put_bare(alloc, members, link, id, item),
    }
}

/// Puts an inline interface on its side, under its name. Its attributes were checked.
///
/// A refusal is E44 or E17 at its name, where the side has that already; or a failed allocation.
pub fn put_inline(
    alloc: Global,
    members: &mut Members,
    written: &Extern<'_>,
    name: Id<'_>,
    id: InterfaceId,
) -> ParseResult<()>
    ensures puts { OnOk result ((xs : _) → PutsOn members.old members.new (SideInline written.now name.entry xs) (inline_entry written.now name.entry id)) }
    ensures first { (xs : _) → Finds (put_fault members.old (SideInline written.now name.entry xs)) result }
{
    let item = inline_item(alloc, written, name, id)?;
    put_named(alloc, members, written.side, name, item)
}

/// The names of a scope as imports of a world, each with the type that it means, with capacity for so
/// many imports and exports more.
///
/// The refusal is E17 at a name whose folded key an earlier one has, or a failed allocation.
pub fn named_members(
    alloc: Global,
    turn: &[Id<'_>],
    types: &TextTable<TypeId>,
    imports: usize,
    exports: usize,
) -> ParseResult<Members>
    requires distinct { AllDiffer (map (λ id. id.name.now) turn.now) }
    requires listed { names_in types.now ≡ map (λ id. id.name.now) turn.now }
    ensures in_use { IfOk result (λ m. (s : _) → defined_on s m.in_use ≡ names_on s (map name_of_id turn.now)) }
    ensures linked { IfOk result (λ m. (s : _) → linked_on s m.links ≡ []) }
    ensures imports { IfOk result (λ m. (xs : _) → turn.now ≡ map local_id xs → m.sides.imports ≡ the_imports xs types.now) }
    ensures exports { IfOk result (λ m. m.sides.exports ≡ []) }
    ensures keyed { IfOk result AreKeyed }
    ensures first { Finds (defined_fault [] (map name_of_id turn.now)) result }
{
    let mut in_use = Sides::new(alloc);
    define_names(&mut in_use, turn)?;
    let sides = named_sides(alloc, turn, types, imports, exports)?;
    Ok(Members {
        in_use,
        links: Links::new(alloc),
        sides,
    })
}
