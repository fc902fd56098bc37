//! Paths to items of other packages, and those items.
ghost use Rattle.std.specs.Prelude.{◌≡◌, ◌++◌, List, [], ◌∷◌, map, IfOk, OnOk};
ghost use Rattle.wit_syntax.specs.Address.{ForeignNamed, package_of, release_of};
ghost use Rattle.wit_syntax.specs.Foreign.{ForeignVisit as TheVisit, declaration_visits, foreign_visits as the_visits};
ghost use Rattle.wit_first.specs.First.{Finds, first_in};
ghost use Rattle.wit_files.specs.ForeignPaths.{AreItemsOf, foreign_view, item_place, key_address, key_release, path_visit, wants_world};
ghost use Rattle.std.specs.List.{flat_map};
ghost use Rattle.wit_first.specs.AttributeFaults.{stability_fault};

use crate::visit::{Visit, Wanted, visits};
use semver::Version;
use std::alloc::{AllocError, Global};
use wit_maps::Table;
use wit_notes::attributes::check_stability;
use wit_tree::ParseResult;
use wit_tree::tree::{Attribute, Id, PackageFile, PackageName, UsePath};

/// A path with a package, which leads to an item of that package.
///
/// The first visit of an item says what it is: a world if that visit wants one, else an interface.
#[derive(Clone, Copy, Debug)]
pub struct ForeignVisit<'f, 'a> {
    /// The attributes before the `use`, the include, the import or the export.
    pub attributes: &'f [Attribute<'a>],
    pub package: &'f PackageName<'a>,
    /// The name of the item.
    pub name: Id<'a>,
    /// Whether it is the path of an include.
    pub wants_world: bool,
}

/// The parts of a version.
#[derive(Clone, Copy, PartialEq, Eq, PartialOrd, Ord, Hash)]
struct VersionKey<'k> {
    major: u64,
    minor: u64,
    patch: u64,
    pre: &'k str,
    build: &'k str,
}

/// What items of other packages are distinguished by: their packages, to the builds of their versions,
/// and their names.
#[derive(Clone, Copy, PartialEq, Eq, PartialOrd, Ord, Hash)]
pub struct ForeignKey<'k> {
    namespace: &'k str,
    package: &'k str,
    version: Option<VersionKey<'k>>,
    name: &'k str,
}

/// The items of other packages.
pub struct ForeignItems<'f, 'a> {
    /// Each item at its first visit.
    pub items: Vec<ForeignVisit<'f, 'a>>,
    /// The keys of the items.
    keys: Table<ForeignKey<'f>, ()>,
}

impl Drop for ForeignItems<'_, '_> {
    fn drop(self) {
        let ForeignItems { items: _, keys: _ } = self;
    }
}

/// The parts of a version.
fn version_key<'k>(version: &'k Version) -> VersionKey<'k>
    ensures { key_release result ≡ release_of version.now }
{
    VersionKey {
        major: version.major,
        minor: version.minor,
        patch: version.patch,
        pre: version.pre.as_str(),
        build: version.build.as_str(),
    }
}

/// The key of an item of a package.
fn foreign_key<'k>(id: &'k PackageName<'k>, name: Id<'k>) -> ForeignKey<'k>
    ensures { key_address result ≡ ForeignNamed (package_of id.now) name.entry.name.now }
{
    let version = match &id.version {
        Some(version) => Some(version_key(version)),
        None => None,
    };
    ForeignKey {
        namespace: id.namespace.name,
        package: id.name.name,
        version,
        name: name.name,
    }
}

/// Adds a visit of a path, where that has a package.
fn add_visit<'f, 'a>(
    foreign: &mut Vec<ForeignVisit<'f, 'a>>,
    visit: Visit<'f, 'a>,
) -> Result<(), AllocError>
    ensures { OnOk result (map foreign_view foreign.new.items ≡ map foreign_view foreign.old.items ++ path_visit visit.entry) }
{
    match visit.path {
        UsePath::Id(_) => {}
        UsePath::Package { id, name } => foreign.push(ForeignVisit {
            attributes: visit.attributes,
            package: id,
            name: *name,
            wants_world: visit.wanted == Wanted::World,
        })?,
    }
    Ok(())
}

/// Adds the paths with a package of a file.
fn add_visits<'f, 'a>(
    alloc: Global,
    file: &'f PackageFile<'a>,
    foreign: &mut Vec<ForeignVisit<'f, 'a>>,
) -> Result<(), AllocError>
    ensures { OnOk result (map foreign_view foreign.new.items ≡ map foreign_view foreign.old.items ++ flat_map declaration_visits file.now.decl_list.items.items) }
{
    let visits = visits(alloc, &file.decl_list)?;
    for visit in &visits {
        add_visit(foreign, *visit)?;
    }
    Ok(())
}

/// The paths with a package of files, in push order and then in source order.
pub fn foreign_visits<'f, 'a>(
    alloc: Global,
    files: &'f [PackageFile<'a>],
) -> Result<Vec<ForeignVisit<'f, 'a>>, AllocError>
    ensures { IfOk result (λ visits. map foreign_view visits.items ≡ the_visits files.now) }
{
    let mut foreign = Vec::new(alloc);
    for file in files {
        add_visits(alloc, file, &mut foreign)?;
    }
    Ok(foreign)
}

/// Refuses attributes before a path with a package that break a rule of stability.
pub fn check_visits(alloc: Global, visits: &[ForeignVisit<'_, '_>]) -> ParseResult<()>
    ensures { Finds (first_in (λ (v : TheVisit). stability_fault v.attributes) (map foreign_view visits.now)) result }
{
    for visit in visits {
        check_stability(alloc, visit.attributes)?;
    }
    Ok(())
}

impl<'f, 'a> ForeignItems<'f, 'a> {
    /// No item.
    pub fn new(alloc: Global) -> Self
        ensures { AreItemsOf [] result }
    {
        ForeignItems {
            items: Vec::new(alloc),
            keys: Table::new(alloc),
        }
    }

    /// Adds the item of a visit, where it is new.
    fn add(&mut self, visit: ForeignVisit<'f, 'a>) -> Result<(), AllocError>
        ensures { OnOk result ((visits : List TheVisit) → AreItemsOf visits self.old → AreItemsOf (visits ++ foreign_view visit.entry ∷ []) self.new) }
    {
        let key = foreign_key(visit.package, visit.name);
        if self.keys.insert(key, ())?.is_none() {
            self.items.push(visit)?;
        }
        Ok(())
    }

    /// The items of visits.
    pub fn of(alloc: Global, visits: &[ForeignVisit<'f, 'a>]) -> Result<Self, AllocError>
        ensures { IfOk result (AreItemsOf (map foreign_view visits.now)) }
    {
        let mut items = ForeignItems::new(alloc);
        for visit in visits {
            items.add(*visit)?;
        }
        Ok(items)
    }

    /// The place of an item of a package; none where no visit leads to it.
    pub fn place(&self, id: &'f PackageName<'a>, name: Id<'a>) -> Option<usize>
        ensures { (visits : List TheVisit) → AreItemsOf visits self.now → result ≡ item_place id.now name.entry.name.now visits }
    {
        self.keys.get_index_of(&foreign_key(id, name))
    }
}
