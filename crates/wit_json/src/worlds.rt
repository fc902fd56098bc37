//! Worlds.
ghost use Rattle.std.specs.Prelude.{◌≡◌, ◌++◌, ◌∷◌, [], IfOk, OnOk, map, string_bytes};
ghost use Rattle.json.specs.Token as token;
ghost use Rattle.wit_json.specs.ValueTokens.{Adds, AddsMembers};
ghost use Rattle.wit_json.specs.Values.{fields};
ghost use Rattle.wit_json.specs.Worlds.{borrowed_members, extern_member, extern_members, externs_json, include_json, include_members, interface_key, item_json, rename_json, rename_members, type_members, world_back, world_prefix, world_json, world_key, world_members};

use crate::lists::{AsJson, write_list};
use crate::member_words::Word;
use crate::members::{open, push_key, push_number, push_text, write_optional_id};
use crate::metadata::{push_docs, push_external, push_span, push_stability};
use crate::output::Output;
use std::alloc::{AllocError, Global};
use wit_maps::Table;
use wit_model::{IncludeName, World, WorldInclude, WorldItem, WorldKey};
use wit_types::{Docs, InterfaceId, Stability, TypeId};
use wit_values::{Rare, Span, Text};

/// An interface that a world imports or exports.
#[derive(Clone, Copy)]
struct Import<'a> {
    id: InterfaceId,
    stability: &'a Stability,
    external_id: &'a Rare<Text>,
    docs: &'a Docs,
    span: Span,
}

fn push_import(out: &mut Output, import: &Import<'_>) -> Result<(), AllocError>
    ensures { OnOk result (AddsMembers out.old out.new (borrowed_members import.now)) }
{
    push_number(out, Word::Id, import.id.index())?;
    push_stability(out, import.stability)?;
    push_external(out, import.external_id)?;
    push_docs(out, import.docs)?;
    push_span(out, Word::Span, import.span)
}

#[tactic(auto, using(crate::proofs::Closing::fields_closed))]
fn write_import(out: &mut Output, import: &Import<'_>) -> Result<(), AllocError>
    ensures { OnOk result (Adds out.old out.new (fields (borrowed_members import.now))) }
{
    out.begin_object()?;
    push_import(out, import)?;
    out.end_object()
}

fn push_type(out: &mut Output, id: TypeId, span: Span) -> Result<(), AllocError>
    ensures { OnOk result (AddsMembers out.old out.new (type_members id span)) }
{
    push_number(out, Word::Type_, id.index())?;
    push_span(out, Word::Span, span)
}

/// A type that a world uses or defines.
#[tactic(auto, using(crate::proofs::Closing::fields_closed))]
fn write_type(out: &mut Output, id: TypeId, span: Span) -> Result<(), AllocError>
    ensures { OnOk result (Adds out.old out.new (fields (type_members id span))) }
{
    out.begin_object()?;
    push_type(out, id, span)?;
    out.end_object()
}

impl AsJson for WorldItem {
    ghost json = { item_json };

    fn write(&self, out: &mut Output) -> Result<(), AllocError> {
        match self {
            WorldItem::Interface {
                id,
                stability,
                external_id,
                docs,
                span,
            } => {
                open(out, Word::Interface)?;
                let import = Import {
                    id: *id,
                    stability,
                    external_id,
                    docs,
                    span: *span,
                };
                write_import(out, &import)?;
                out.end_object()
            }
            WorldItem::Function(function) => {
                open(out, Word::Function)?;
                function.write(out)?;
                out.end_object()
            }
            WorldItem::Type_ { id, span } => write_type(out, *id, *span),
        }
    }
}

/// The key of an interface that is imported or exported by its path. No label has a colon.
fn place_text(alloc: Global, place: usize) -> Result<String, AllocError>
    ensures { IfOk result (λ text. string_bytes text ≡ interface_key place) }
{
    format!(in alloc; "interface:{place}")
}

fn push_place_key(out: &mut Output, place: usize) -> Result<(), AllocError>
    ensures { OnOk result (out.new ≡ out.old ++ token.key (interface_key place) ∷ []) }
{
    let text = place_text(out.alloc(), place)?;
    out.key(text.as_str())
}

/// The key of an import or export.
fn push_world_key(out: &mut Output, key: &WorldKey) -> Result<(), AllocError>
    ensures { OnOk result (out.new ≡ out.old ++ token.key (world_key key.now) ∷ []) }
{
    match key {
        WorldKey::Name(name) => out.key(name.as_str()),
        WorldKey::Interface(id) => push_place_key(out, id.index()),
    }
}

fn push_extern(out: &mut Output, key: &WorldKey, item: &WorldItem) -> Result<(), AllocError>
    ensures { OnOk result (AddsMembers out.old out.new (extern_member key.now item.now ∷ [])) }
{
    push_world_key(out, key)?;
    item.write(out)
}

fn push_externs(out: &mut Output, externs: &Table<WorldKey, WorldItem>) -> Result<(), AllocError>
    ensures { OnOk result (AddsMembers out.old out.new (extern_members externs.now)) }
{
    for place in 0..externs.len() {
        let Some((key, item)) = externs.get_index(place) else {
            unreachable!()
        };
        push_extern(out, key, item)?;
    }
    Ok(())
}

#[tactic(auto, using(crate::proofs::Closing::fields_closed))]
fn write_externs(out: &mut Output, externs: &Table<WorldKey, WorldItem>) -> Result<(), AllocError>
    ensures { OnOk result (Adds out.old out.new (externs_json externs.now)) }
{
    out.begin_object()?;
    push_externs(out, externs)?;
    out.end_object()
}

fn push_rename(out: &mut Output, rename: &IncludeName) -> Result<(), AllocError>
    ensures { OnOk result (AddsMembers out.old out.new (rename_members rename.now)) }
{
    push_text(out, Word::Name, rename.name.as_str())?;
    push_text(out, Word::As, rename.as_.as_str())
}

impl AsJson for IncludeName {
    ghost json = { rename_json };

    #[tactic(auto, using(crate::proofs::Closing::fields_closed))]
    fn write(&self, out: &mut Output) -> Result<(), AllocError> {
        out.begin_object()?;
        push_rename(out, self)?;
        out.end_object()
    }
}

fn push_include(out: &mut Output, include: &WorldInclude) -> Result<(), AllocError>
    ensures { OnOk result (AddsMembers out.old out.new (include_members include.now)) }
{
    push_stability(out, &include.stability)?;
    push_number(out, Word::Id, include.id.index())?;
    push_key(out, Word::Names)?;
    write_list(out, include.names.as_slice())?;
    push_span(out, Word::Span, include.span)
}

impl AsJson for WorldInclude {
    ghost json = { include_json };

    #[tactic(auto, using(crate::proofs::Closing::fields_closed))]
    fn write(&self, out: &mut Output) -> Result<(), AllocError> {
        out.begin_object()?;
        push_include(out, self)?;
        out.end_object()
    }
}

fn push_front(out: &mut Output, world: &World) -> Result<(), AllocError>
    ensures { OnOk result (AddsMembers out.old out.new (world_prefix world.now)) }
{
    push_text(out, Word::Name, world.name.as_str())?;
    push_key(out, Word::Imports)?;
    write_externs(out, &world.imports)?;
    push_key(out, Word::Exports)?;
    write_externs(out, &world.exports)
}

fn push_back(out: &mut Output, world: &World) -> Result<(), AllocError>
    ensures { OnOk result (AddsMembers out.old out.new (world_back world.now)) }
{
    push_key(out, Word::Package)?;
    write_optional_id(out, world.package)?;
    push_docs(out, &world.docs)?;
    push_stability(out, &world.stability)?;
    push_key(out, Word::Includes)?;
    write_list(out, world.includes.as_slice())?;
    push_span(out, Word::Span, world.span)
}

fn push_world(out: &mut Output, world: &World) -> Result<(), AllocError>
    ensures { OnOk result (AddsMembers out.old out.new (world_members world.now)) }
{
    push_front(out, world)?;
    push_back(out, world)
}

impl AsJson for World {
    ghost json = { world_json };

    #[tactic(auto, using(crate::proofs::Closing::fields_closed))]
    fn write(&self, out: &mut Output) -> Result<(), AllocError> {
        out.begin_object()?;
        push_world(out, self)?;
        out.end_object()
    }
}
