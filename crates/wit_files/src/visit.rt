//! The paths of a file, in the order in which they occur.
ghost use Rattle.std.specs.Prelude.{◌≡◌, [], ◌∷◌, ◌++◌, map, None, IfOk, OnOk};
ghost use Rattle.std.specs.List.{flat_map};
ghost use Rattle.wit_files.specs.Visits.{visit_view, use_visit, part_visits, interface_visits, world_part_visits, extern_visit, extern_visits, side_part_visits, world_visits, item_visits, visits as the_visits};

use std::alloc::{AllocError, Global};
use wit_notes::is_same_side;
use wit_top_names::declaration::{interface_items, world_items};
use wit_tree::tree::{
    AstItem, Attribute, DeclList, Extern, ExternKind, Id, Interface, InterfaceItem, Use, UseName,
    UsePath, World, WorldItem, WorldSide,
};

/// What the item that a path leads to has to be.
#[derive(Clone, Copy, Debug, PartialEq, Eq)]
pub enum Wanted {
    /// An interface, from which names are used, or which a world imports or exports.
    Interface,
    /// A world, which is included.
    World,
    /// Any item: what the path leads to says what it is.
    Unknown,
}

/// A path of a file, its item, the attributes before it, and the names used through it.
#[derive(Clone, Copy, Debug)]
pub struct Visit<'f, 'a> {
    /// The name of the item that has to come after what the path leads to: of a declared interface
    /// for its `use`s, of a world for its includes. `None` for any other path.
    pub owner: Option<Id<'a>>,
    /// The attributes before the `use`, the include, the import or the export.
    pub attributes: &'f [Attribute<'a>],
    pub path: &'f UsePath<'a>,
    /// The names that are used from the item, or `None` where the item itself is named.
    pub names: Option<&'f [UseName<'a>]>,
    pub wanted: Wanted,
}

/// Adds the visit of a `use`, of the item of this name, if one has to come after what it leads to.
fn add_use<'f, 'a>(
    owner: Option<Id<'a>>,
    used: &'f Use<'a>,
    visits: &mut Vec<Visit<'f, 'a>>,
) -> Result<(), AllocError>
    ensures { OnOk result (map visit_view visits.new.items ≡ map visit_view visits.old.items ++ use_visit owner.entry used.now ∷ []) }
{
    visits.push(Visit {
        owner,
        attributes: &used.attributes,
        path: &used.from,
        names: Some(&used.names),
        wanted: Wanted::Interface,
    })?;
    Ok(())
}

/// Adds the visits of an interface: one for each `use`.
fn add_interface_visits<'f, 'a>(
    interface: &'f Interface<'a>,
    visits: &mut Vec<Visit<'f, 'a>>,
) -> Result<(), AllocError>
    ensures { OnOk result (map visit_view visits.new.items ≡ map visit_view visits.old.items ++ interface_visits interface.now) }
{
    for item in interface_items(interface) {
        if let InterfaceItem::Use(used) = item {
            add_use(Some(interface.name), used, visits)?;
        }
    }
    Ok(())
}

/// Adds the visit of a part of a world of this name, where that is a `use` or an include.
fn add_world_part<'f, 'a>(
    owner: Id<'a>,
    item: &'f WorldItem<'a>,
    visits: &mut Vec<Visit<'f, 'a>>,
) -> Result<(), AllocError>
    ensures { OnOk result (map visit_view visits.new.items ≡ map visit_view visits.old.items ++ world_part_visits owner.entry item.now) }
{
    match item {
        WorldItem::TypeDef(_) | WorldItem::Extern(_) => {}
        WorldItem::Use(used) => add_use(None, used, visits)?,
        WorldItem::Include(include) => visits.push(Visit {
            owner: Some(owner),
            attributes: &include.attributes,
            path: &include.from,
            names: None,
            wanted: Wanted::World,
        })?,
    }
    Ok(())
}

/// Adds the visits of the `use`s and the includes of a world.
fn add_world_parts<'f, 'a>(
    world: &'f World<'a>,
    visits: &mut Vec<Visit<'f, 'a>>,
) -> Result<(), AllocError>
    ensures { OnOk result (map visit_view visits.new.items ≡ map visit_view visits.old.items ++ flat_map (world_part_visits world.now.name) world.now.items.items) }
{
    for item in world_items(world) {
        add_world_part(world.name, item, visits)?;
    }
    Ok(())
}

/// Adds the visits of an interface that is written in a world: one for each `use`.
fn add_inline_visits<'f, 'a>(
    items: &'f [InterfaceItem<'a>],
    visits: &mut Vec<Visit<'f, 'a>>,
) -> Result<(), AllocError>
    ensures { OnOk result (map visit_view visits.new.items ≡ map visit_view visits.old.items ++ flat_map (part_visits None) items.now) }
{
    for item in items {
        if let InterfaceItem::Use(used) = item {
            add_use(None, used, visits)?;
        }
    }
    Ok(())
}

/// Adds the visit of a path by which a world imports or exports an interface.
fn add_link<'f, 'a>(
    attributes: &'f [Attribute<'a>],
    path: &'f UsePath<'a>,
    visits: &mut Vec<Visit<'f, 'a>>,
) -> Result<(), AllocError>
    ensures { OnOk result (map visit_view visits.new.items ≡ map visit_view visits.old.items ++ extern_visit attributes.now path.now ∷ []) }
{
    visits.push(Visit {
        owner: None,
        attributes,
        path,
        names: None,
        wanted: Wanted::Interface,
    })?;
    Ok(())
}

/// Adds the visits of what a world imports or exports: of an interface that is written there one
/// for each `use`, and one of an interface by its path.
fn add_extern<'f, 'a>(
    external: &'f Extern<'a>,
    visits: &mut Vec<Visit<'f, 'a>>,
) -> Result<(), AllocError>
    ensures { OnOk result (map visit_view visits.new.items ≡ map visit_view visits.old.items ++ extern_visits external.now) }
{
    match &external.kind {
        ExternKind::Interface(_, items) => add_inline_visits(items, visits)?,
        ExternKind::Path(path) => add_link(&external.attributes, path, visits)?,
        ExternKind::Func(_, _) => {}
        ExternKind::NamedPath(_, path) => add_link(&external.attributes, path, visits)?,
    }
    Ok(())
}

/// Adds the visits of a part of a world, where that is on this side.
fn add_side_part<'f, 'a>(
    side: WorldSide,
    item: &'f WorldItem<'a>,
    visits: &mut Vec<Visit<'f, 'a>>,
) -> Result<(), AllocError>
    ensures { OnOk result (map visit_view visits.new.items ≡ map visit_view visits.old.items ++ side_part_visits side item.now) }
{
    match item {
        WorldItem::TypeDef(_) | WorldItem::Use(_) | WorldItem::Include(_) => {}
        WorldItem::Extern(external) => {
            if is_same_side(side, external.side) {
                add_extern(external, visits)?;
            }
        }
    }
    Ok(())
}

/// Adds the visits of what is on a side of a world.
fn add_side<'f, 'a>(
    world: &'f World<'a>,
    side: WorldSide,
    visits: &mut Vec<Visit<'f, 'a>>,
) -> Result<(), AllocError>
    ensures { OnOk result (map visit_view visits.new.items ≡ map visit_view visits.old.items ++ flat_map (side_part_visits side) world.now.items.items) }
{
    for item in world_items(world) {
        add_side_part(side, item, visits)?;
    }
    Ok(())
}

/// Adds the visits of a world: one for each `use` and each include, then those of its imports, and
/// then those of its exports.
fn add_world_visits<'f, 'a>(
    world: &'f World<'a>,
    visits: &mut Vec<Visit<'f, 'a>>,
) -> Result<(), AllocError>
    ensures { OnOk result (map visit_view visits.new.items ≡ map visit_view visits.old.items ++ world_visits world.now) }
{
    add_world_parts(world, visits)?;
    add_side(world, WorldSide::Imported, visits)?;
    add_side(world, WorldSide::Exported, visits)
}

/// Adds the visits of a declaration.
fn add_visits<'f, 'a>(
    item: &'f AstItem<'a>,
    visits: &mut Vec<Visit<'f, 'a>>,
) -> Result<(), AllocError>
    ensures { OnOk result (map visit_view visits.new.items ≡ map visit_view visits.old.items ++ item_visits item.now) }
{
    match item {
        AstItem::Interface(interface) => add_interface_visits(interface, visits)?,
        AstItem::World(world) => add_world_visits(world, visits)?,
        AstItem::Use(used) => visits.push(Visit {
            owner: None,
            attributes: &used.attributes,
            path: &used.item,
            names: None,
            wanted: Wanted::Unknown,
        })?,
    }
    Ok(())
}

/// The visits of a file, one declaration after another: of an interface one for each `use`; of a
/// world one for each `use` and each include, then those of its imports in order, and then those of
/// its exports in order; and one for a `use` at the top of the file. An import or an export by a path
/// gives one, and one that is an interface written there gives one for each `use` in it.
///
/// The error is a failed allocation.
pub fn visits<'f, 'a>(
    alloc: Global,
    list: &'f DeclList<'a>,
) -> Result<Vec<Visit<'f, 'a>>, AllocError>
    ensures { IfOk result (λ visits. map visit_view visits.items ≡ the_visits list.now) }
{
    let mut visits = Vec::new(alloc);
    for item in &list.items {
        add_visits(item, &mut visits)?;
    }
    Ok(visits)
}
