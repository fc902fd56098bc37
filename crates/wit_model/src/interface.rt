//! Interfaces.

use wit_functions::Function;
use wit_maps::TextTable;
use wit_types::{Docs, InterfaceId, PackageId, Stability, TypeId};
use wit_values::{Span, Text};

/// An interface: its types and functions by their names.
#[derive(Debug, PartialEq, Eq)]
pub struct Interface {
    /// The name, unless the interface is written inside a world or in another package.
    pub name: Option<Text>,
    /// The names of types, used ones first.
    pub types: TextTable<TypeId>,
    /// The functions by their names with marks, as `[method]r.f`.
    pub functions: TextTable<Function>,
    pub docs: Docs,
    pub stability: Stability,
    /// The package, once packages are joined; `None` here.
    pub package: Option<PackageId>,
    /// The name's place.
    pub span: Span,
    /// The interface that this one is a copy of; `None` here.
    pub clone_of: Option<InterfaceId>,
}

impl Drop for Interface {
    fn drop(self) {
        let Interface {
            name: _,
            types: _,
            functions: _,
            docs: _,
            stability: _,
            package: _,
            span: _,
            clone_of: _,
        } = self;
    }
}
