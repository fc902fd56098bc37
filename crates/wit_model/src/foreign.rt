//! Interfaces and worlds of other packages.
ghost use Rattle.std.specs.Prelude.{◌≡◌, []};

use crate::ast_item::AstItem;
use std::alloc::Global;
use wit_maps::{Table, TextTable};
use wit_package_names::package_name::PackageName;
use wit_types::{Stability, TypeId};
use wit_values::{Row, Span};

/// What a package names of other packages.
///
/// A visit is a path that leads to an interface or a world.
#[derive(Drop)]
pub struct ForeignItems {
    /// The packages, in the order in which paths first name them. Each has the names of its items
    /// in the order of their first visits: what each is, an interface or a world of the arenas,
    /// and the stability of every visit of it, in order.
    pub deps: Table<PackageName, TextTable<(AstItem, Row<Stability>)>>,
    /// For each package of `deps`, where a path first names it.
    pub dep_spans: Row<Span>,
    /// For each type of another package, where it is first used. These types are the unknown ones
    /// at the start of the arena of types.
    pub unknown_type_spans: Row<Span>,
    /// For each handle that names a type of another package: that type, which must be a resource,
    /// and where its name is written, in the order in which they are read, with repeats.
    pub required_resource_types: Row<(TypeId, Span)>,
}

impl ForeignItems {
    /// Nothing of other packages.
    pub fn none(alloc: Global) -> ForeignItems
        ensures deps { result.deps ≡ [] }
        ensures dep_spans { result.dep_spans ≡ [] }
        ensures unknown_type_spans { result.unknown_type_spans ≡ [] }
        ensures required_resource_types { result.required_resource_types ≡ [] }
    {
        ForeignItems {
            deps: Table::new(alloc),
            dep_spans: Row::new(alloc),
            unknown_type_spans: Row::new(alloc),
            required_resource_types: Row::new(alloc),
        }
    }
}
