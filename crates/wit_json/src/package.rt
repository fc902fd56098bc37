//! A package.
ghost use Rattle.std.specs.Prelude.{◌≡◌, ◌∷◌, [], OnOk};
ghost use Rattle.wit_json.specs.ValueTokens.{Adds, AddsMembers};
ghost use Rattle.wit_json.specs.Package.{ast_item_json, dep_member, dep_members, deps_json, foreign_json, name_members, package_back, package_prefix, package_json, package_members, package_middle, required_json};

use crate::kinds::write_tagged;
use crate::lists::{AsJson, write_arena, write_list, write_table};
use crate::member_words::Word;
use crate::members::{push_key, push_text};
use crate::metadata::{push_docs, push_span};
use crate::output::Output;
use std::alloc::AllocError;
use wit_maps::{Table, TextTable};
use wit_model::{AstItem, UnresolvedPackage};
use wit_package_names::PackageName;
use wit_types::{Stability, TypeId};
use wit_values::{Row, Span};

fn write_ast_item(out: &mut Output, item: AstItem) -> Result<(), AllocError>
    ensures { OnOk result (Adds out.old out.new (ast_item_json item)) }
{
    match item {
        AstItem::Interface(id) => write_tagged(out, Word::Interface, id.index()),
        AstItem::World(id) => write_tagged(out, Word::World, id.index()),
    }
}

impl AsJson for (AstItem, Row<Stability>) {
    ghost json = { foreign_json };

    fn write(&self, out: &mut Output) -> Result<(), AllocError> {
        out.begin_array()?;
        write_ast_item(out, self.0)?;
        write_list(out, self.1.as_slice())?;
        out.end_array()
    }
}

impl AsJson for (TypeId, Span) {
    ghost json = { required_json };

    fn write(&self, out: &mut Output) -> Result<(), AllocError> {
        out.begin_array()?;
        self.0.write(out)?;
        self.1.write(out)?;
        out.end_array()
    }
}

fn push_dep(
    out: &mut Output,
    name: &PackageName,
    items: &TextTable<(AstItem, Row<Stability>)>,
) -> Result<(), AllocError>
    ensures { OnOk result (AddsMembers out.old out.new (dep_member name.now items.now ∷ [])) }
{
    let text = name.to_text(out.alloc())?;
    out.key(text.as_str())?;
    write_table(out, items)
}

fn push_deps(
    out: &mut Output,
    deps: &Table<PackageName, TextTable<(AstItem, Row<Stability>)>>,
) -> Result<(), AllocError>
    ensures { OnOk result (AddsMembers out.old out.new (dep_members deps.now)) }
{
    for place in 0..deps.len() {
        let Some((name, items)) = deps.get_index(place) else {
            unreachable!()
        };
        push_dep(out, name, items)?;
    }
    Ok(())
}

#[tactic(auto, using(crate::proofs::Closing::fields_closed))]
fn write_deps(
    out: &mut Output,
    deps: &Table<PackageName, TextTable<(AstItem, Row<Stability>)>>,
) -> Result<(), AllocError>
    ensures { OnOk result (Adds out.old out.new (deps_json deps.now)) }
{
    out.begin_object()?;
    push_deps(out, deps)?;
    out.end_object()
}

fn push_name(out: &mut Output, name: &PackageName) -> Result<(), AllocError>
    ensures { OnOk result (AddsMembers out.old out.new (name_members name.now)) }
{
    let text = name.to_text(out.alloc())?;
    push_text(out, Word::Name, text.as_str())
}

fn push_front(out: &mut Output, resolved: &UnresolvedPackage) -> Result<(), AllocError>
    ensures { OnOk result (AddsMembers out.old out.new (package_prefix resolved.now)) }
{
    push_name(out, &resolved.name)?;
    push_key(out, Word::Worlds)?;
    write_arena(out, &resolved.worlds)?;
    push_key(out, Word::Interfaces)?;
    write_arena(out, &resolved.interfaces)?;
    push_key(out, Word::Types)?;
    write_arena(out, &resolved.types)
}

fn push_middle(out: &mut Output, resolved: &UnresolvedPackage) -> Result<(), AllocError>
    ensures { OnOk result (AddsMembers out.old out.new (package_middle resolved.now)) }
{
    push_key(out, Word::ForeignDeps)?;
    write_deps(out, &resolved.foreign_deps)?;
    push_docs(out, &resolved.docs)?;
    push_span(out, Word::PackageNameSpan, resolved.package_name_span())
}

fn push_back(out: &mut Output, resolved: &UnresolvedPackage) -> Result<(), AllocError>
    ensures { OnOk result (AddsMembers out.old out.new (package_back resolved.now)) }
{
    push_key(out, Word::UnknownTypeSpans)?;
    write_list(out, resolved.unknown_type_spans())?;
    push_key(out, Word::ForeignDepSpans)?;
    write_list(out, resolved.foreign_dep_spans())?;
    push_key(out, Word::RequiredResourceTypes)?;
    write_list(out, resolved.required_resource_types())
}

fn push_package(out: &mut Output, resolved: &UnresolvedPackage) -> Result<(), AllocError>
    ensures { OnOk result (AddsMembers out.old out.new (package_members resolved.now)) }
{
    push_front(out, resolved)?;
    push_middle(out, resolved)?;
    push_back(out, resolved)
}

impl AsJson for UnresolvedPackage {
    ghost json = { package_json };

    #[tactic(auto, using(crate::proofs::Closing::fields_closed))]
    fn write(&self, out: &mut Output) -> Result<(), AllocError> {
        out.begin_object()?;
        push_package(out, self)?;
        out.end_object()
    }
}
