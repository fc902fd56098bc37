//! Syntax trees of WIT files, with names borrowed from the source.
ghost use Rattle.std.specs.Prelude.{◌≡◌};

use semver::Version;
use std::fmt;
pub use wit_type_tree::leaves::{Attribute, Docs, Id};
pub use wit_type_tree::types::{
    Case, EnumCase, Field, Flag, Func, FuncForm, NamedFunc, Param, Primitive, ResourceFunc,
    ResultTypes, Type, TypeBody, TypeDef,
};
use wit_values::Span;

/// A file of a package: its header, if it has one, and its declarations.
#[derive(Debug)]
pub struct PackageFile<'a> {
    pub package_id: Option<PackageName<'a>>,
    pub decl_list: DeclList<'a>,
}

impl Drop for PackageFile<'_> {
    fn drop(self) {
        let PackageFile {
            package_id: _,
            decl_list: _,
        } = self;
    }
}

/// A source as it is read: a file of a package, and the packages that are nested in it.
#[derive(Drop)]
pub struct SourceFile<'a> {
    /// The header, and the declarations that are the file's own.
    pub file: PackageFile<'a>,
    /// In source order, wherever they are among the declarations.
    pub nested: Vec<NestedPackage<'a>>,
}

/// Writes packages one after another.
fn show_packages<W: fmt::Write>(
    packages: &[NestedPackage<'_>],
    f: &mut fmt::Formatter<W>,
) -> fmt::Result {
    let mut between = "";
    for package in packages {
        f.write_str(between)?;
        fmt::Debug::fmt(package, f)?;
        between = ", ";
    }
    Ok(())
}

/// Writes what a derive would, in parts: a check of all at once takes too many steps.
impl<'a> fmt::Debug for SourceFile<'a> {
    fn fmt<W: fmt::Write>(&self, f: &mut fmt::Formatter<W>) -> fmt::Result {
        f.write_str("SourceFile { file: ")?;
        fmt::Debug::fmt(&self.file, f)?;
        f.write_str(", nested: [")?;
        show_packages(&self.nested, f)?;
        f.write_str("] }")
    }
}

/// A package that is nested in a file: its declarations are in braces after its name.
#[derive(Debug, Drop)]
pub struct NestedPackage<'a> {
    /// Written as in a header.
    pub name: PackageName<'a>,
    pub decl_list: DeclList<'a>,
    /// The names of the packages that are nested in it in turn, in source order. It may have none, so
    /// that nothing else of them is kept.
    pub nested: Vec<PackageName<'a>>,
}

/// The name of a package, as a header, a nested package or a path writes it.
#[derive(Debug)]
pub struct PackageName<'a> {
    /// Those of a header or a nested package; a package in a path has none.
    pub docs: Docs<'a>,
    /// In a header or a nested package from the namespace to the end of the version, or of the name
    /// where there is none; in a path to the end of the name, since the version comes after the
    /// item's.
    pub span: Span,
    pub namespace: Id<'a>,
    pub name: Id<'a>,
    pub version: Option<Version>,
}

impl Drop for PackageName<'_> {
    fn drop(self) {
        let PackageName {
            docs: _,
            span: _,
            namespace: _,
            name: _,
            version: _,
        } = self;
    }
}

/// Declarations in source order.
#[derive(Debug, Drop)]
pub struct DeclList<'a> {
    pub items: Vec<AstItem<'a>>,
}

/// A declaration.
#[derive(Debug)]
pub enum AstItem<'a> {
    Interface(Interface<'a>),
    World(World<'a>),
    Use(ToplevelUse<'a>),
}

impl Drop for AstItem<'_> {
    fn drop(self) {
        match self {
            AstItem::Interface(_) => {}
            AstItem::World(_) => {}
            AstItem::Use(_) => {}
        }
    }
}

/// Another name for an item of the package, which holds in one file. Docs before it are no part
/// of it.
#[derive(Debug, Drop)]
pub struct ToplevelUse<'a> {
    /// That of the word `use`.
    pub span: Span,
    pub attributes: Vec<Attribute<'a>>,
    pub item: UsePath<'a>,
    /// The name after `as`; where there is none, it is the path's.
    pub as_: Option<Id<'a>>,
}

/// A declared interface.
#[derive(Debug, Drop)]
pub struct Interface<'a> {
    pub docs: Docs<'a>,
    pub attributes: Vec<Attribute<'a>>,
    pub name: Id<'a>,
    pub items: Vec<InterfaceItem<'a>>,
}

/// What an interface holds.
#[derive(Debug)]
pub enum InterfaceItem<'a> {
    TypeDef(TypeDef<'a>),
    Use(Use<'a>),
    Func(NamedFunc<'a>),
}

impl Drop for InterfaceItem<'_> {
    fn drop(self) {
        match self {
            InterfaceItem::TypeDef(_) => {}
            InterfaceItem::Use(_) => {}
            InterfaceItem::Func(_) => {}
        }
    }
}

/// A declared world.
#[derive(Debug, Drop)]
pub struct World<'a> {
    pub docs: Docs<'a>,
    pub attributes: Vec<Attribute<'a>>,
    pub name: Id<'a>,
    pub items: Vec<WorldItem<'a>>,
}

/// What a world holds.
#[derive(Debug)]
pub enum WorldItem<'a> {
    /// What it imports or exports.
    Extern(Extern<'a>),
    Use(Use<'a>),
    TypeDef(TypeDef<'a>),
    Include(Include<'a>),
}

impl Drop for WorldItem<'_> {
    fn drop(self) {
        match self {
            WorldItem::Extern(_) => {}
            WorldItem::Use(_) => {}
            WorldItem::TypeDef(_) => {}
            WorldItem::Include(_) => {}
        }
    }
}

/// A side of a world: what it imports, or what it exports.
#[derive(Clone, Copy, Debug)]
pub enum WorldSide {
    Imported,
    Exported,
}

/// What a world imports or exports.
#[derive(Debug, Drop)]
pub struct Extern<'a> {
    pub side: WorldSide,
    pub docs: Docs<'a>,
    pub attributes: Vec<Attribute<'a>>,
    pub kind: ExternKind<'a>,
}

/// What is imported or exported.
#[derive(Debug)]
pub enum ExternKind<'a> {
    /// An interface that is written in the world, under a name.
    Interface(Id<'a>, Vec<InterfaceItem<'a>>),
    /// An interface elsewhere.
    Path(UsePath<'a>),
    /// A function, under a name.
    Func(Id<'a>, Func<'a>),
    /// An interface elsewhere, under a name of this world.
    NamedPath(Id<'a>, UsePath<'a>),
}

impl Drop for ExternKind<'_> {
    fn drop(self) {
        match self {
            ExternKind::Interface(_, _) => {}
            ExternKind::Path(_) => {}
            ExternKind::Func(_, _) => {}
            ExternKind::NamedPath(_, _) => {}
        }
    }
}

impl<'a> ExternKind<'a> {
    ghost use Rattle.wit_tree.specs.Externs.{extern_span};

    /// Where its name is written; where it has none, its path.
    pub fn span(&self) -> Span
        ensures { result ≡ extern_span self.now }
    {
        match self {
            ExternKind::Interface(name, _) => name.span,
            ExternKind::Path(path) => path.span(),
            ExternKind::Func(name, _) => name.span,
            ExternKind::NamedPath(name, _) => name.span,
        }
    }
}

/// Another world, whose items belong to the one that includes it, some under other names.
#[derive(Debug, Drop)]
pub struct Include<'a> {
    pub attributes: Vec<Attribute<'a>>,
    pub from: UsePath<'a>,
    pub names: Vec<IncludeName<'a>>,
}

/// A name of an included world, and the name that it gets.
#[derive(Debug, Drop)]
pub struct IncludeName<'a> {
    pub name: Id<'a>,
    pub as_: Id<'a>,
}

/// Names that are used from an interface, in source order.
#[derive(Debug, Drop)]
pub struct Use<'a> {
    pub attributes: Vec<Attribute<'a>>,
    pub from: UsePath<'a>,
    pub names: Vec<UseName<'a>>,
}

/// What is used, or used from.
#[derive(Debug)]
pub enum UsePath<'a> {
    /// A name of the package.
    Id(Id<'a>),
    /// An item of a package, also where that is this one's own name.
    Package { id: PackageName<'a>, name: Id<'a> },
}

impl Drop for UsePath<'_> {
    fn drop(self) {
        match self {
            UsePath::Id(_) => {}
            UsePath::Package { id: _, name: _ } => {}
        }
    }
}

impl<'a> UsePath<'a> {
    ghost use Rattle.wit_tree.specs.Externs.{path_span};

    /// Where its last name is written.
    pub fn span(&self) -> Span
        ensures { result ≡ path_span self.now }
    {
        match self {
            UsePath::Id(id) => id.span,
            UsePath::Package { name, .. } => name.span,
        }
    }
}

/// A used name, and the local name that `as` gives it.
#[derive(Debug, Drop)]
pub struct UseName<'a> {
    pub name: Id<'a>,
    pub as_: Option<Id<'a>>,
}
