//! The view `external-ids`: names that items have elsewhere. No text says them: each
//! `@unstable(feature = id-..)` of a read tree is made such a name here, before any view of a package
//! but `listing`.

use crate::docs::push_key;
use std::alloc::{AllocError, Global};
use wit_maps::Table;
use wit_model::{Interface, UnresolvedPackage, World, WorldItem, WorldKey};
use wit_text::{Source, read_file};
use wit_tree::ParseResult;
use wit_tree::tree::{
    self, AstItem, Attribute, DeclList, Extern, ExternKind, InterfaceItem, ResourceFunc,
    SourceFile, TypeBody, TypeDef,
};
use wit_types::{Arena, InterfacePlace, Types, WorldPlace};
use wit_values::{Rare, Text};

/// The external id that a feature is made, where it begins with `id-`.
fn id_of<'a>(attribute: &Attribute<'a>) -> Option<Attribute<'a>> {
    let Attribute::Unstable { span, feature } = attribute else {
        return None;
    };
    let id = feature.name;
    if !id.starts_with("id-") {
        return None;
    }
    Some(Attribute::ExternalId { span: *span, id })
}

/// Makes external ids of the features that begin with `id-`.
fn mark(attributes: &mut Vec<Attribute<'_>>) {
    for attribute in attributes.iter_mut() {
        if let Some(id) = id_of(attribute) {
            *attribute = id;
        }
    }
}

fn mark_resource_function(function: &mut ResourceFunc<'_>) {
    match function {
        ResourceFunc::Method(function) => mark(&mut function.attributes),
        ResourceFunc::Static(function) => mark(&mut function.attributes),
        ResourceFunc::Constructor { attributes, .. } => mark(attributes),
    }
}

fn mark_definition(def: &mut TypeDef<'_>) {
    mark(&mut def.attributes);
    if let TypeBody::Resource { funcs } = &mut def.body {
        for function in funcs.iter_mut() {
            mark_resource_function(function);
        }
    }
}

fn mark_interface_item(item: &mut InterfaceItem<'_>) {
    match item {
        InterfaceItem::TypeDef(def) => mark_definition(def),
        InterfaceItem::Use(used) => mark(&mut used.attributes),
        InterfaceItem::Func(function) => mark(&mut function.attributes),
    }
}

fn mark_extern(external: &mut Extern<'_>) {
    mark(&mut external.attributes);
    if let ExternKind::Interface(_, items) = &mut external.kind {
        for item in items.iter_mut() {
            mark_interface_item(item);
        }
    }
}

fn mark_world_item(item: &mut tree::WorldItem<'_>) {
    match item {
        tree::WorldItem::Extern(external) => mark_extern(external),
        tree::WorldItem::TypeDef(def) => mark_definition(def),
        tree::WorldItem::Use(used) => mark(&mut used.attributes),
        tree::WorldItem::Include(include) => mark(&mut include.attributes),
    }
}

fn mark_item(item: &mut AstItem<'_>) {
    match item {
        AstItem::Interface(interface) => {
            mark(&mut interface.attributes);
            for item in interface.items.iter_mut() {
                mark_interface_item(item);
            }
        }
        AstItem::World(world) => {
            mark(&mut world.attributes);
            for item in world.items.iter_mut() {
                mark_world_item(item);
            }
        }
        AstItem::Use(used) => mark(&mut used.attributes),
    }
}

fn mark_declarations(declarations: &mut DeclList<'_>) {
    for item in declarations.items.iter_mut() {
        mark_item(item);
    }
}

/// Makes external ids of the features of a source that begin with `id-`.
fn mark_source(source: &mut SourceFile<'_>) {
    mark_declarations(&mut source.file.decl_list);
    for inner in source.nested.iter_mut() {
        mark_declarations(&mut inner.decl_list);
    }
}

/// The tree of a source, in which the features that begin with `id-` are external ids.
pub fn read_marked<'a>(alloc: Global, source: &'a Source) -> ParseResult<SourceFile<'a>> {
    let mut read = read_file(alloc, source.contents.as_str(), source.offset)?;
    mark_source(&mut read);
    Ok(read)
}

/// Puts a name and its external id after a text, as a line.
fn push_id(text: &mut String, name: &str, id: &Rare<Text>) -> Result<(), AllocError> {
    if let Some(id) = id.get() {
        text.push_str("\n")?;
        text.push_str(name)?;
        text.push_str(" ")?;
        text.push_str(id.as_str())?;
    }
    Ok(())
}

/// Puts a key of a world and the external id of what it has by this key after a text, as a line.
fn push_key_id(text: &mut String, key: &WorldKey, id: &Rare<Text>) -> Result<(), AllocError> {
    if let Some(id) = id.get() {
        push_key(text, key)?;
        text.push_str(" ")?;
        text.push_str(id.as_str())?;
    }
    Ok(())
}

/// Puts the external id of what a world has by this key after a text, if it is a function or an interface.
fn push_item_id(text: &mut String, key: &WorldKey, item: &WorldItem) -> Result<(), AllocError> {
    match item {
        WorldItem::Function(function) => push_key_id(text, key, &function.external_id),
        WorldItem::Interface { external_id, .. } => push_key_id(text, key, external_id),
        WorldItem::Type_ { .. } => Ok(()),
    }
}

/// Puts the external ids of what is on a side of a world after a text.
fn push_side_ids(text: &mut String, items: &Table<WorldKey, WorldItem>) -> Result<(), AllocError> {
    for place in 0..items.len() {
        if let Some((key, item)) = items.get_index(place) {
            push_item_id(text, key, item)?;
        }
    }
    Ok(())
}

/// Puts the external ids of what worlds import and export after a text.
fn push_world_ids(text: &mut String, worlds: &Arena<World, WorldPlace>) -> Result<(), AllocError> {
    for world in worlds.iter() {
        push_side_ids(text, &world.imports)?;
        push_side_ids(text, &world.exports)?;
    }
    Ok(())
}

/// Puts the external ids of types after a text.
fn push_type_ids(text: &mut String, types: &Types) -> Result<(), AllocError> {
    for ty in types.iter() {
        match &ty.name {
            Some(name) => push_id(text, name.as_str(), &ty.external_id)?,
            None => push_id(text, "-", &ty.external_id)?,
        }
    }
    Ok(())
}

/// Puts the external ids of the functions of interfaces after a text.
fn push_function_ids(
    text: &mut String,
    interfaces: &Arena<Interface, InterfacePlace>,
) -> Result<(), AllocError> {
    for interface in interfaces.iter() {
        for place in 0..interface.functions.len() {
            if let Some((name, function)) = interface.functions.get_index(place) {
                push_id(text, name, &function.external_id)?;
            }
        }
    }
    Ok(())
}

/// Puts the external ids of a package after a text, those of types and then those of functions.
pub fn push_ids(text: &mut String, package: &UnresolvedPackage) -> Result<(), AllocError> {
    text.push_str("ids")?;
    push_type_ids(text, &package.types)?;
    push_function_ids(text, &package.interfaces)?;
    push_world_ids(text, &package.worlds)?;
    text.push_str("\n")
}
