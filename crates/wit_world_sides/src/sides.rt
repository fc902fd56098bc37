//! What a world has on its sides: the names of its scope as imports, and what is put there.
ghost use Rattle.std.specs.Prelude.{◌≡◌, ◌<◌, [], IfOk, OnOk, map, unwrap_or};
ghost use Rattle.indexmap.specs.IndexMap.{insert_entry};
ghost use Rattle.wit_type_tree.specs.Attributes.{stated_text};
ghost use Rattle.wit_type_tree.specs.declared.attribute_kind.AttributeKind.TheVariants.{ExternalId};
ghost use Rattle.wit_model.specs.declared.world.WorldKey.TheVariants.{Name};
ghost use Rattle.wit_model.specs.declared.world.WorldItem.TheVariants.{Interface as InterfaceItem, Type_ as TypeItem};
ghost use Rattle.wit_model.specs.contracts.world.WorldKeyPartialEq.TheImpl.{eq-value as key_test};
ghost use Rattle.wit_syntax.specs.Metadata.{stability_of};
ghost use Rattle.wit_syntax.specs.Repeats.{AllDiffer};
ghost use Rattle.wit_syntax.specs.Source.{local_id, path_id};
ghost use Rattle.wit_arena.specs.SourceFunctions.{inline_entry, link_item};
ghost use Rattle.wit_arena.specs.Whole.{type_imports as the_imports};
ghost use Rattle.wit_world_sides.specs.Members.{path_link, entries_of, inserted_on};

use crate::members::PathExtern;
use std::alloc::{AllocError, Global};
use wit_maps::{Table, TextTable};
use wit_model::{Function, WorldItem, WorldKey};
use wit_notes::{docs, path_id, stated_metadata};
use wit_tree::Span;
use wit_tree::tree::{Attribute, Extern, Id, UsePath, WorldSide};
use wit_types::{Docs, InterfaceId, Stability, TypeId};
use wit_values::{Rare, Text};

/// Puts a type at a name of a world, as an import.
fn add_import(
    alloc: Global,
    imports: &mut Table<WorldKey, WorldItem>,
    id: Id<'_>,
    ty: TypeId,
) -> Result<(), AllocError>
    ensures { OnOk result (imports.new ≡ insert_entry key_test.it imports.old (Name id.entry.name.now) (TypeItem ty id.entry.span)) }
{
    let key = WorldKey::Name(Text::from_str(alloc, id.name)?);
    let item = WorldItem::Type_ {
        id: ty,
        span: id.span,
    };
    imports.put(key, item)?;
    Ok(())
}

/// The names of a scope as imports of a world: each with the type that it means. After them is room
/// for so many more.
fn type_imports(
    alloc: Global,
    turn: &[Id<'_>],
    types: &TextTable<TypeId>,
    more: usize,
) -> Result<Table<WorldKey, WorldItem>, AllocError>
    requires distinct { AllDiffer (map (λ id. id.name.now) turn.now) }
    ensures { IfOk result (λ is. (xs : _) → turn.now ≡ map local_id xs → is ≡ the_imports xs types.now) }
{
    let capacity = turn.len().saturating_add(more);
    let mut imports = Table::with_capacity(alloc, capacity)?;
    for (place, id) in turn.iter().enumerate() {
        if let Some((_, ty)) = types.get_index(place) {
            add_import(alloc, &mut imports, *id, *ty)?;
        }
    }
    Ok(imports)
}

/// What a world imports and exports.
#[derive(Drop)]
pub struct WorldSides {
    /// The imports: the names of its scope, and then what is written.
    pub imports: Table<WorldKey, WorldItem>,
    /// The exports.
    pub exports: Table<WorldKey, WorldItem>,
}

/// The names of a scope as imports of a world, each with the type that it means, and no exports. After
/// them is room for so many imports and exports more.
pub fn named_sides(
    alloc: Global,
    turn: &[Id<'_>],
    types: &TextTable<TypeId>,
    imports: usize,
    exports: usize,
) -> Result<WorldSides, AllocError>
    requires distinct { AllDiffer (map (λ id. id.name.now) turn.now) }
    ensures imports { IfOk result (λ w. (xs : _) → turn.now ≡ map local_id xs → w.imports ≡ the_imports xs types.now) }
    ensures exports { IfOk result (λ w. w.exports ≡ []) }
{
    let imports = type_imports(alloc, turn, types, imports)?;
    let exports = Table::with_capacity(alloc, exports)?;
    Ok(WorldSides { imports, exports })
}

/// Puts an item at a key of a side.
pub(crate) fn add_item(
    sides: &mut WorldSides,
    side: WorldSide,
    key: WorldKey,
    item: WorldItem,
) -> Result<(), AllocError>
    ensures { OnOk result ((s : _) → entries_of s sides.new ≡ inserted_on s side (key, item) (entries_of s sides.old)) }
{
    match side {
        WorldSide::Imported => {
            sides.imports.put(key, item)?;
        }
        WorldSide::Exported => {
            sides.exports.put(key, item)?;
        }
    }
    Ok(())
}

/// Where an interface is: where the name of its own does, or else its path.
fn link_span(name: Option<Id<'_>>, path: &UsePath<'_>) -> Span
    ensures { result ≡ (unwrap_or name.entry (path_id path.now)).span }
{
    match name {
        Some(name) => name.span,
        None => path_id(path).span,
    }
}

/// An interface on a side, with these docs and what attributes say of it there.
fn interface_item(
    alloc: Global,
    id: InterfaceId,
    attributes: &[Attribute<'_>],
    docs: Docs,
    span: Span,
) -> Result<WorldItem, AllocError>
    ensures { IfOk result (λ i. i ≡ InterfaceItem id (stability_of attributes.now) (stated_text ExternalId attributes.now) docs span) }
{
    if attributes.len() == 0 {
        return Ok(WorldItem::Interface {
            id,
            stability: Stability::Unknown,
            external_id: Rare::none(),
            docs,
            span,
        });
    }
    let as_stated = stated_metadata(alloc, attributes)?;
    Ok(WorldItem::Interface {
        id,
        stability: as_stated.stability,
        external_id: as_stated.external_id,
        docs,
        span,
    })
}

/// An interface that is imported or exported by its path, with what is stated of it there.
pub(crate) fn path_item(
    alloc: Global,
    link: PathExtern<'_, '_>,
    id: InterfaceId,
) -> Result<WorldItem, AllocError>
    ensures { IfOk result (λ i. i ≡ (link_item (path_link link.entry) id).1) }
{
    let docs = docs(alloc, &link.written.docs)?;
    let span = link_span(link.name, link.path);
    let attributes = &link.written.attributes;
    interface_item(alloc, id, attributes, docs, span)
}

/// An inline interface, with what is stated of it where it is imported or exported under a name.
pub(crate) fn inline_item(
    alloc: Global,
    written: &Extern<'_>,
    name: Id<'_>,
    id: InterfaceId,
) -> Result<WorldItem, AllocError>
    ensures { IfOk result (λ i. i ≡ (inline_entry written.now name.entry id).1) }
{
    let attributes = &written.attributes;
    interface_item(alloc, id, attributes, Docs::default(), name.span)
}
