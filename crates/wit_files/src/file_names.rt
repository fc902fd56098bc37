//! The names of files: of the items that they declare, and those at the top of each.
ghost use Rattle.std.specs.Prelude.{◌≡◌, ◌<◌, Some, length, map, slice_get, IfOk};
ghost use Rattle.wit_graph.specs.Table.{IsOrder};
ghost use Rattle.wit_syntax.specs.Source.{leads as the_leads, all_items, is_world as is_the_world};
ghost use Rattle.wit_syntax.specs.ScopeTables.{item_rows};
ghost use Rattle.wit_syntax.specs.Foreign.{foreign_visits as the_visits, foreign_items};
ghost use Rattle.wit_first.specs.First.{FindsBy};
ghost use Rattle.wit_first.specs.OrderFaults.{IsNamesFault};
ghost use Rattle.wit_top_names.specs.Tops.{target_view};
ghost use Rattle.wit_files.specs.ForeignPaths.{foreign_view};
ghost use Rattle.wit_files.specs.FileNames.{AreTablesOf, found_at, top_at};

use crate::foreign::ForeignVisit;
use crate::tables::Tables;
use std::alloc::Global;
use std::marker::Model;
use wit_top_names::top_name::{Target, leads};
use wit_tree::ParseResult;
use wit_tree::tree::{PackageFile, UsePath};

/// What a path leads to.
#[derive(Clone, Copy, Debug, PartialEq, Eq)]
pub enum Found {
    /// A declared item: its place among all of them, in push order and then in source order.
    Item(usize),
    /// An item of another package: its place in [`FileNames::foreign`].
    Foreign(usize),
}

/// The items that files declare, each with the items that have to come before it, the names at the
/// top of each file, and the items of other packages. An interface comes after those of the package
/// that it uses, and a world after those that it includes.
///
/// Contracts see the list of the files.
pub struct FileNames<'f, 'a> {
    files: &'f [PackageFile<'a>],
    tables: Tables<'f, 'a>,
}

impl Drop for FileNames<'_, '_> {
    fn drop(self) {
        let FileNames {
            files: _,
            tables: _,
        } = self;
    }
}

impl<'f, 'a> Model for FileNames<'f, 'a> {
    ghost use Rattle.std.specs.Prelude.{List, []};
    ghost use Rattle.wit_tree.specs.declared.tree.PackageFile.{PackageFile};
    ghost use Rattle.wit_files.specs.FileNames.{AreTablesOf};
    ghost use Rattle.wit_type_tree.specs.contracts.types.Type as written;
    ghost use Rattle.std.specs.Coded.{codes};
    ghost use mir.Syntax.{named};

    ghost Value = { List PackageFile };

    ghost coded = { Prim.hlevel (codes, (written.the_row (record { mir = named 0; lft = [] })).coded) };

    ghost view = { λ n. n.files.now };

    ghost invariant = { λ n. AreTablesOf n.files.now n.tables };
}

impl<'f, 'a> FileNames<'f, 'a> {
    /// The names of files that have these tables.
    fn of(files: &'f [PackageFile<'a>], tables: Tables<'f, 'a>) -> Self
        requires { AreTablesOf files.now tables }
        ensures { result ≡ files.now }
    {
        FileNames { files, tables }
    }

    /// The names of files.
    ///
    /// What is in other packages is not known: a path with a package leads to an item there, and
    /// whether that is an interface or a world its first path says.
    ///
    /// # Errors
    ///
    /// The names are given exactly where none of these rules is broken, unless memory is wanted.
    /// Breaches are found in this order: 30 to 34, path by path; then 5, by place; then file by file
    /// 6, and 7 of the paths of that file's items that are no name at its top; then 7 of the other
    /// paths of items, and 8; then file by file, for each `use` at its top, 9 and then 7. The paths of
    /// an item are here those of an interface's `use`s and those of a world's includes.
    ///
    /// - 30 to 34, as [`stability`](crate::stability) says: attributes before a path with a
    ///   package break a rule of stability.
    /// - 5, at the later name: an item is declared twice.
    /// - 6, at the later name: a name occurs twice at the top of a file.
    /// - 7: a path without a package, of an item, leads to no declared item and to none of another
    ///   package. It is at that path; for one that is a name at the top of its file, at what that
    ///   name means. Or the path of a `use` at the top of a file, without a package, is the name
    ///   of no declared item.
    /// - 8: interfaces use, or worlds include, one another in a cycle. It is where a path on the way
    ///   to one leads: at the name that the same file declares, at the path of the `use` at its top,
    ///   else at the path itself.
    /// - 9, at the word `use`: a `use` at the top of a file has attributes.
    /// - 45: a growth was refused.
    pub fn gather(alloc: Global, files: &'f [PackageFile<'a>]) -> ParseResult<FileNames<'f, 'a>>
        ensures files { IfOk result (λ names. names ≡ files.now) }
        ensures first { FindsBy (IsNamesFault files.now) result }
    {
        match Tables::gather(alloc, files) {
            Ok(tables) => Ok(FileNames::of(files, tables)),
            Err(e) => Err(e),
        }
    }

    /// The places of the items, each after those that have to come before it, in the least such
    /// order.
    pub fn item_order(&self) -> &[usize]
        ensures { IsOrder (item_rows self.now) result.now }
    {
        &self.tables.order
    }

    /// Whether the item at a place among all of them is a world.
    pub fn is_world(&self, place: usize) -> bool
        requires within { place < length (all_items self.now) }
        ensures { slice_get (map is_the_world (all_items self.now)) place ≡ Some result }
    {
        self.tables.kinds[place]
    }

    /// The items of other packages, each at its first visit, in the order of [`Self::foreign_visits`].
    pub fn foreign(&self) -> &[ForeignVisit<'f, 'a>]
        ensures { map foreign_view result.now ≡ foreign_items self.now }
    {
        &self.tables.foreign.items
    }

    /// The paths with a package of all files, in push order and then in source order.
    pub fn foreign_visits(&self) -> &[ForeignVisit<'f, 'a>]
        ensures { map foreign_view result.now ≡ the_visits self.now }
    {
        &self.tables.visits
    }

    /// What is where a path leads; none where no item has the name, or no path of the files leads
    /// to that item of another package.
    pub fn found(&self, target: Target<'f, 'a>) -> Option<Found>
        ensures { result ≡ found_at self.now (target_view target.entry) }
    {
        match target {
            Target::Local(id) => {
                let place = self.tables.items.get_index_of(id.name)?;
                Some(Found::Item(place))
            }
            Target::Foreign { package, name } => {
                let place = self.tables.foreign.place(package, name)?;
                Some(Found::Foreign(place))
            }
        }
    }

    /// Where a path in an item of the file at a place leads: where the name at the top of the file
    /// means, where it is one, else where the path says.
    pub fn target(&self, file: usize, path: &'f UsePath<'a>) -> Target<'f, 'a>
        requires within { file < length self.now }
        ensures { target_view result ≡ the_leads (top_at self.now file) path.now }
    {
        leads(&self.tables.tops[file], path)
    }

    /// What a path in an item of the file at a place leads to; none where no item has the name, or no
    /// path of the files leads to that item of another package.
    ///
    /// A path of a `use` at the top of a file says itself where it leads: it is not read here.
    pub fn lookup(&self, file: usize, path: &'f UsePath<'a>) -> Option<Found>
        requires within { file < length self.now }
        ensures { result ≡ found_at self.now (the_leads (top_at self.now file) path.now) }
    {
        self.found(self.target(file, path))
    }
}
