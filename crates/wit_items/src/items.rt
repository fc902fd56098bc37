//! The declared items of all files, each with the names of its scope.
ghost use Rattle.std.specs.Prelude.{◌≡◌, ◌++◌, Some, map, slice_get, IfOk, OnOk};
ghost use Rattle.wit_syntax.specs.Source.{TheWorld, file_items, all_items};
ghost use Rattle.wit_first.specs.First.{Finds, first_in};
ghost use Rattle.wit_first.specs.UseFaults.{all_uses_fault, item_uses_fault};
ghost use Rattle.wit_items.specs.BorrowedItems.{inside_of, item_view, scope_item, AreItemsOf, AreWorldNames};
ghost use Rattle.wit_items.specs.ItemPaths.{HasItem, item_in};

use crate::files::Files;
use crate::inline_names::names_inside;
use crate::part_names::{interface_names, world_names};
use std::alloc::Global;
use wit_scopes::scope_name::ScopeName;
use wit_top_names::declarations;
use wit_tree::ParseResult;
use wit_tree::tree::{
    AstItem, Extern, Id, Interface, InterfaceItem, PackageFile, World, WorldSide,
};
use wit_values::push;

/// An interface that is written where a world imports or exports it.
#[derive(Clone, Copy)]
pub struct InlineInterface<'f, 'a> {
    /// The name of the world.
    pub world: &'a str,
    /// How many come before it on its side, after the names of types.
    pub place: usize,
    pub written: &'f Extern<'a>,
    /// The name that it has there.
    pub name: Id<'a>,
    pub items: &'f [InterfaceItem<'a>],
}

/// A declared interface or world, or an interface that is written in a world.
#[derive(Clone, Copy)]
pub enum Declared<'f, 'a> {
    Interface(&'f Interface<'a>),
    World(&'f World<'a>),
    Inline(InlineInterface<'f, 'a>),
}

/// What is written in a world, with the names of its scope.
#[derive(Drop)]
pub struct Scoped<I: Drop, N: Drop> {
    pub inline: I,
    pub names: Vec<N>,
}

/// An interface that is written in a world, with the names of its scope.
///
/// A list of them is one of [`Scoped`]s, which know nothing of the trees that they borrow from.
pub type Inside<'f, 'a> = Scoped<InlineInterface<'f, 'a>, ScopeName<'f, 'a>>;

/// A declared item with the names of its scope, and the interfaces that are written in it.
pub struct Item<'f, 'a> {
    /// The place of the file that declares it.
    pub place: usize,
    pub file: &'f PackageFile<'a>,
    pub declared: Declared<'f, 'a>,
    pub names: Vec<ScopeName<'f, 'a>>,
    /// The interfaces that are written where it imports them, in source order.
    pub imported: Vec<Inside<'f, 'a>>,
    /// Those that are written where it exports them.
    pub exported: Vec<Inside<'f, 'a>>,
}

impl Drop for Item<'_, '_> {
    fn drop(self) {
        let Item {
            place: _,
            file: _,
            declared: _,
            names: _,
            imported: _,
            exported: _,
        } = self;
    }
}

/// An item with the names of its scope, which are lent.
#[derive(Clone, Copy)]
pub struct ItemScope<'f, 'a, 'i> {
    pub file: &'f PackageFile<'a>,
    pub declared: Declared<'f, 'a>,
    pub names: &'i [ScopeName<'f, 'a>],
}

/// An item once more.
fn copied<'f, 'a>(declared: &Declared<'f, 'a>) -> Declared<'f, 'a>
    ensures { result ≡ declared.now }
{
    *declared
}

impl<'f, 'a> Item<'f, 'a> {
    /// The item with its names, but for what is written in it.
    pub fn scope(&self) -> ItemScope<'f, 'a, '_>
        ensures item { scope_item result ≡ item_view self.now }
        ensures borrowed { result.names.now ≡ self.now.names.items }
    {
        ItemScope {
            file: self.file,
            declared: copied(&self.declared),
            names: &self.names,
        }
    }

    /// The interfaces that are written on a side of it.
    pub fn inside(&self, side: WorldSide) -> &[Inside<'f, 'a>]
        ensures { result.now ≡ inside_of side self.now }
    {
        match side {
            WorldSide::Imported => &self.imported,
            WorldSide::Exported => &self.exported,
        }
    }
}

/// The names of the scope of a world, and the interfaces that are written in it, by their sides.
#[derive(Drop)]
struct WorldNames<'f, 'a> {
    own: Vec<ScopeName<'f, 'a>>,
    imported: Vec<Inside<'f, 'a>>,
    exported: Vec<Inside<'f, 'a>>,
}

/// Those of a world that the file at a place declares.
fn names_of_world<'f, 'a>(
    alloc: Global,
    files: &Files<'f, 'a, '_, '_>,
    world: &'f World<'a>,
    place: usize,
) -> ParseResult<WorldNames<'f, 'a>>
    requires { HasItem files.now place (TheWorld world.now) }
    ensures names { IfOk result (AreWorldNames files.now place world.now) }
    ensures first { Finds (item_uses_fault files.now (item_in files.now place (TheWorld world.now))) result }
{
    Ok(WorldNames {
        own: world_names(alloc, files, world, place)?,
        imported: names_inside(alloc, files, world, WorldSide::Imported, place)?,
        exported: names_inside(alloc, files, world, WorldSide::Exported, place)?,
    })
}

/// Adds the items of the file at a place.
fn add_items<'f, 'a>(
    alloc: Global,
    files: &Files<'f, 'a, '_, '_>,
    file: &'f PackageFile<'a>,
    items: &mut Vec<Item<'f, 'a>>,
    place: usize,
) -> ParseResult<()>
    requires file { slice_get files.now place ≡ Some file.now }
    ensures items { OnOk result (map item_view items.new.items ≡ map item_view items.old.items ++ file_items file.now) }
    ensures each { OnOk result (AreItemsOf files.now items.old.items → AreItemsOf files.now items.new.items) }
    ensures first { Finds (first_in (item_uses_fault files.now) (file_items file.now)) result }
{
    let declared = declarations(file);
    for item in declared {
        match item {
            AstItem::Interface(interface) => push(
                items,
                Item {
                    place,
                    file,
                    declared: Declared::Interface(interface),
                    names: interface_names(alloc, files, &interface.items, place)?,
                    imported: Vec::new(alloc),
                    exported: Vec::new(alloc),
                },
            )?,
            AstItem::World(world) => {
                let names = names_of_world(alloc, files, world, place)?;
                push(
                    items,
                    Item {
                        place,
                        file,
                        declared: Declared::World(world),
                        names: names.own,
                        imported: names.imported,
                        exported: names.exported,
                    },
                )?
            }
            AstItem::Use(_) => {}
        }
    }
    Ok(())
}

/// The items of all files, in push order and then in source order, with room for so many.
///
/// A `use` in an item is refused whose attributes break a rule (30 to 35), which leads to no item (7),
/// or to a world (10).
pub fn declared_items<'f, 'a>(
    alloc: Global,
    names: &Files<'f, 'a, '_, '_>,
    files: &'f [PackageFile<'a>],
    room: usize,
) -> ParseResult<Vec<Item<'f, 'a>>>
    requires files { names.now ≡ files.now }
    ensures items { IfOk result (λ items. map item_view items.items ≡ all_items names.now) }
    ensures each { IfOk result (λ items. AreItemsOf names.now items.items) }
    ensures first { Finds (all_uses_fault names.now) result }
{
    let mut items = Vec::with_capacity(alloc, room)?;
    for (place, file) in files.iter().enumerate() {
        add_items(alloc, names, file, &mut items, place)?;
    }
    Ok(items)
}
