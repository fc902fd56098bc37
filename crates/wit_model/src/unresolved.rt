//! Resolved packages.
ghost use Rattle.std.specs.Prelude.{◌≡◌, IfOk};
ghost use Rattle.wit_model.specs.Packages.{package_of_parts};

mod spans;

use crate::ast_item::AstItem;
use crate::foreign::ForeignItems;
use crate::interface::Interface;
use crate::laws::copies::copy_package_name;
use crate::world::World;
use std::alloc::AllocError;
use wit_maps::{Table, TextTable};
use wit_package_names::package_name::PackageName;
use wit_types::laws::copies::copy_docs;
use wit_types::{Arena, Docs, InterfacePlace, Stability, TypeDef, TypeId, TypePlace, WorldPlace};
use wit_values::{Row, Span};

/// The arenas of a package, of which `UnresolvedPackage::new` makes it.
#[derive(Drop)]
pub struct Arenas {
    /// The types, each after those that it refers to.
    pub types: Arena<TypeDef, TypePlace>,
    /// The interfaces, each after those that it uses.
    pub interfaces: Arena<Interface, InterfacePlace>,
    /// The worlds, each after those that it includes.
    pub worlds: Arena<World, WorldPlace>,
}

/// A package whose names are resolved, but not those of other packages.
///
/// Two are equal if their names, docs, spans, arenas, items of other packages and types that handles
/// require are, where two maps are equal if they hold the same pairs in any order.
///
/// Its spans move together (`HasSpans`): those that its calls answer, and those of its worlds,
/// interfaces and types, with those of what these hold.
#[derive(Debug, PartialEq, Eq, Drop)]
pub struct UnresolvedPackage {
    /// The name that the headers give.
    pub name: PackageName,
    pub worlds: Arena<World, WorldPlace>,
    /// The interfaces: each after those that it uses, and else in push order and source order.
    pub interfaces: Arena<Interface, InterfacePlace>,
    /// The types: each after those that it refers to.
    pub types: Arena<TypeDef, TypePlace>,
    /// The other packages, in the order in which paths first name them. Each has the names of its
    /// items in the order in which paths first lead to them: what each is, an interface or a world
    /// of the arenas, and the stability of every path that leads to it, in order.
    pub foreign_deps: Table<PackageName, TextTable<(AstItem, Row<Stability>)>>,
    /// The docs of the first header that has some.
    pub docs: Docs,
    name_span: Span,
    unknown_type_spans: Row<Span>,
    foreign_dep_spans: Row<Span>,
    required_resource_types: Row<(TypeId, Span)>,
}

impl UnresolvedPackage {
    /// A package of these parts, with the docs of its headers, whose last header is at
    /// `name_span`, and with what it names of other packages.
    pub fn new(
        name: PackageName,
        arenas: Arenas,
        docs: Docs,
        name_span: Span,
        foreign: ForeignItems,
    ) -> Self
        ensures { result ≡ package_of_parts name arenas docs name_span foreign }
    {
        UnresolvedPackage {
            name,
            worlds: arenas.worlds,
            interfaces: arenas.interfaces,
            types: arenas.types,
            foreign_deps: foreign.deps,
            docs,
            name_span,
            unknown_type_spans: foreign.unknown_type_spans,
            foreign_dep_spans: foreign.dep_spans,
            required_resource_types: foreign.required_resource_types,
        }
    }

    /// Where the last header is.
    pub fn package_name_span(&self) -> Span
        ensures { result ≡ self.now.name_span }
    {
        self.name_span
    }

    /// Where each type of another package is first used. These types are the unknown ones at the
    /// start of the arena of types, in the same order.
    pub fn unknown_type_spans(&self) -> &[Span]
        ensures { result.now ≡ self.now.unknown_type_spans }
    {
        self.unknown_type_spans.as_slice()
    }

    /// Where a path first names each package of `foreign_deps`, in the same order.
    pub fn foreign_dep_spans(&self) -> &[Span]
        ensures { result.now ≡ self.now.foreign_dep_spans }
    {
        self.foreign_dep_spans.as_slice()
    }

    /// For each handle that names a type of another package: that type, which must be a resource,
    /// and where its name is written, in the order in which they are read, with repeats.
    pub fn required_resource_types(&self) -> &[(TypeId, Span)]
        ensures { result.now ≡ self.now.required_resource_types }
    {
        self.required_resource_types.as_slice()
    }
}

fn copy_worlds(worlds: &Arena<World, WorldPlace>) -> Result<Arena<World, WorldPlace>, AllocError>
    ensures { IfOk result (λ copy. copy ≡ worlds.now) }
{
    worlds.clone()
}

fn copy_interfaces(
    interfaces: &Arena<Interface, InterfacePlace>,
) -> Result<Arena<Interface, InterfacePlace>, AllocError>
    ensures { IfOk result (λ copy. copy ≡ interfaces.now) }
{
    interfaces.clone()
}

fn copy_types(types: &Arena<TypeDef, TypePlace>) -> Result<Arena<TypeDef, TypePlace>, AllocError>
    ensures { IfOk result (λ copy. copy ≡ types.now) }
{
    types.clone()
}

fn copy_spans(spans: &Row<Span>) -> Result<Row<Span>, AllocError>
    ensures { IfOk result (λ copy. copy ≡ spans.now) }
{
    spans.clone()
}

fn copy_required(required: &Row<(TypeId, Span)>) -> Result<Row<(TypeId, Span)>, AllocError>
    ensures { IfOk result (λ copy. copy ≡ required.now) }
{
    required.clone()
}

fn copy_foreign_deps(
    deps: &Table<PackageName, TextTable<(AstItem, Row<Stability>)>>,
) -> Result<Table<PackageName, TextTable<(AstItem, Row<Stability>)>>, AllocError>
    ensures { IfOk result (λ copy. copy ≡ deps.now) }
{
    deps.clone()
}

impl Clone for UnresolvedPackage {
    ghost is_clone = { λ source copy. copy ≡ source };

    fn clone(&self) -> Result<UnresolvedPackage, AllocError> {
        Ok(UnresolvedPackage {
            name: copy_package_name(&self.name)?,
            worlds: copy_worlds(&self.worlds)?,
            interfaces: copy_interfaces(&self.interfaces)?,
            types: copy_types(&self.types)?,
            foreign_deps: copy_foreign_deps(&self.foreign_deps)?,
            docs: copy_docs(&self.docs)?,
            name_span: self.name_span,
            unknown_type_spans: copy_spans(&self.unknown_type_spans)?,
            foreign_dep_spans: copy_spans(&self.foreign_dep_spans)?,
            required_resource_types: copy_required(&self.required_resource_types)?,
        })
    }
}
