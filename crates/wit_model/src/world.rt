//! Worlds.
ghost use Rattle.std.specs.Prelude.{◌≡◌, IfOk, IsSome, Some, string_bytes};
ghost use Rattle.std.specs.Map.{lookup};
ghost use Rattle.std.specs.Option.{option_copied};
ghost use Rattle.wit_model.specs.ItemsOfWorlds.{IsWithin, function_of, is_name, key_text, name_of, span_of, stability_of};

use std::alloc::{AllocError, Global};
use wit_functions::Function;
use wit_functions::maybe_function::MaybeFunction;
use wit_maps::Table;
use wit_types::{Docs, InterfaceId, PackageId, Stability, TypeId, Types, WorldId};
use wit_values::{Rare, Row, Span, Text};

/// A world: what a component imports and exports.
#[derive(Debug, PartialEq, Eq)]
pub struct World {
    pub name: Text,
    pub imports: Table<WorldKey, WorldItem>,
    pub exports: Table<WorldKey, WorldItem>,
    /// The package, once packages are joined; `None` here.
    pub package: Option<PackageId>,
    pub docs: Docs,
    pub stability: Stability,
    pub includes: Row<WorldInclude>,
    /// The name's place.
    pub span: Span,
}

impl Drop for World {
    fn drop(self) {
        let World {
            name: _,
            imports: _,
            exports: _,
            package: _,
            docs: _,
            stability: _,
            includes: _,
            span: _,
        } = self;
    }
}

/// Another world whose imports and exports belong to this one. Its span is the path's.
#[derive(Debug, Clone, PartialEq, Eq)]
pub struct WorldInclude {
    pub stability: Stability,
    pub id: WorldId,
    /// What is renamed.
    pub names: Row<IncludeName>,
    pub span: Span,
}

impl Drop for WorldInclude {
    fn drop(self) {
        let WorldInclude {
            stability: _,
            id: _,
            names: _,
            span: _,
        } = self;
    }
}

/// A name of an included world, and the name that it gets.
#[derive(Debug, Clone, PartialEq, Eq, Drop)]
pub struct IncludeName {
    pub name: Text,
    pub as_: Text,
}

/// What an import or export is found by.
#[derive(Debug, Clone, PartialEq, Eq, Hash, PartialOrd, Ord)]
pub enum WorldKey {
    /// A name, a function's with the marks of its kind.
    Name(Text),
    /// An interface that is imported or exported by its path.
    Interface(InterfaceId),
}

impl Drop for WorldKey {
    fn drop(self) {
        match self {
            WorldKey::Name(_) => {}
            WorldKey::Interface(_) => {}
        }
    }
}

/// An import or export.
#[derive(Debug, PartialEq, Eq)]
pub enum WorldItem {
    Interface {
        id: InterfaceId,
        stability: Stability,
        external_id: Rare<Text>,
        docs: Docs,
        /// The path's place, or that of the label before it.
        span: Span,
    },
    Function(Function),
    Type_ {
        id: TypeId,
        /// The place of the name in this world.
        span: Span,
    },
}

impl Drop for WorldItem {
    fn drop(self) {
        match self {
            WorldItem::Interface {
                id: _,
                stability: _,
                external_id: _,
                docs: _,
                span: _,
            } => {}
            WorldItem::Function(_) => {}
            WorldItem::Type_ { id: _, span: _ } => {}
        }
    }
}

impl WorldKey {
    /// The name. The key is one.
    pub fn unwrap_name(self) -> String
        requires { IsSome (name_of self) }
        ensures { name_of self ≡ Some (string_bytes result) }
    {
        match self {
            WorldKey::Name(name) => name.into_string(),
            WorldKey::Interface(_) => unreachable!(),
        }
    }

    /// Whether the key is this name.
    pub fn is_name(&self, name: &str) -> bool
        ensures { result ≡ is_name name.now self.now }
    {
        match self {
            WorldKey::Name(own) => name == own.as_str(),
            WorldKey::Interface(_) => false,
        }
    }

    /// The name, or `interface-` and the place of the interface.
    ///
    /// The error is a failed allocation.
    pub fn to_text(&self, alloc: Global) -> Result<String, AllocError>
        ensures { IfOk result (λ t. string_bytes t ≡ key_text self.now) }
    {
        match self {
            WorldKey::Name(name) => String::from_str(alloc, name.as_str()),
            WorldKey::Interface(id) => {
                let place = id.index();
                format!(in alloc; "interface-{place}")
            }
        }
    }
}

impl WorldItem {
    /// How stable the item is: as an interface says itself, as a function or a type is.
    ///
    /// A type's id is one of `types`.
    pub fn stability<'a>(&'a self, types: &'a Types) -> &'a Stability
        requires { IsWithin self.now types.now }
        ensures { stability_of self.now types.now ≡ Some result.now }
    {
        match self {
            WorldItem::Interface { stability, .. } => stability,
            WorldItem::Function(function) => &function.stability,
            WorldItem::Type_ { id, .. } => &types.get(*id).stability,
        }
    }

    /// The item's place, of a function that of its name.
    pub fn span(&self) -> Span
        ensures { result ≡ span_of self.now }
    {
        match self {
            WorldItem::Interface { span, .. } => *span,
            WorldItem::Function(function) => function.span,
            WorldItem::Type_ { span, .. } => *span,
        }
    }
}

impl MaybeFunction for WorldItem {
    ghost function_at = { function_of };

    fn maybe_function(&self) -> Option<&Function> {
        world_item_func(self)
    }
}

/// What the imports or exports of a world have at a name, if they have something there.
///
/// No key is made, so nothing is allocated; the keys are compared one by one. With a key at hand,
/// [`Table::get`] is the faster call.
pub fn get_name<'t, V>(items: &'t Table<WorldKey, V>, name: &str) -> Option<&'t V>
    ensures { option_copied result ≡ lookup (is_name name.now) items.now }
{
    for place in 0..items.len() {
        if let Some((key, value)) = items.get_index(place) {
            if key.is_name(name) {
                return Some(value);
            }
        }
    }
    None
}

/// The function that an item of a world is, if it is one.
pub fn world_item_func(item: &WorldItem) -> Option<&Function>
    ensures { option_copied result ≡ function_of item.now }
{
    match item {
        WorldItem::Function(function) => Some(function),
        WorldItem::Interface { .. } | WorldItem::Type_ { .. } => None,
    }
}
