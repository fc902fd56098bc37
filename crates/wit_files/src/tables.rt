//! The tables of the names of files: of the items that they declare, and those at the top of each.
ghost use Rattle.std.specs.Prelude.{◌≡◌, ◌++◌, [], List, map, IfOk, OnOk};
ghost use Rattle.wit_tree.specs.declared.tree.PackageFile.{PackageFile as TheFile};
ghost use Rattle.wit_graph.specs.Table.{rows, IsOrder};
ghost use Rattle.wit_syntax.specs.Source.{Item as TheItem, file_items, all_items, item_name, is_world as is_the_world};
ghost use Rattle.wit_syntax.specs.ScopeTables.{item_row, item_rows};
ghost use Rattle.wit_syntax.specs.Repeats.{AllDiffer};
ghost use Rattle.wit_syntax.specs.Foreign.{ForeignVisit as TheVisit, foreign_visits as the_visits};
ghost use Rattle.wit_first.specs.FileFaults.{file_fault, files_fault, tops_fault, top_fault};
ghost use Rattle.wit_first.specs.First.{Finds, FindsBy, IsOr, first_in};
ghost use Rattle.wit_first.specs.OrderFaults.{IsItemOrderFault, IsNamesFault, items_prefix, names_prefix};
ghost use Rattle.wit_top_names.specs.Tops.{AreDeclared};
ghost use Rattle.wit_files.specs.ForeignPaths.{foreign_view, AreItemsOf};
ghost use Rattle.wit_files.specs.FileNames.{AddsTop, AreTablesOf, AreDeclarationsOf};
ghost use Rattle.wit_first.specs.AttributeFaults.{stability_fault};

use crate::foreign::{ForeignItems, ForeignVisit, check_visits, foreign_visits};
use crate::item_table::{add_items, add_kinds, table_order};
use std::alloc::Global;
use wit_maps::Table;
use wit_top_names::top_name::{Paths, Target, check_top_uses, file_names, item_names};
use wit_tree::ParseResult;
use wit_tree::tree::{Id, PackageFile};

/// What the names of files are kept in.
#[derive(Drop)]
pub(crate) struct Tables<'f, 'a> {
    /// The paths with a package of all files.
    pub visits: Vec<ForeignVisit<'f, 'a>>,
    /// The items of other packages.
    pub foreign: ForeignItems<'f, 'a>,
    /// The items by name, each with the names of the items that have to come before it.
    pub items: Table<&'a str, Vec<Id<'a>>>,
    /// Of each item whether it is a world.
    pub kinds: Vec<bool>,
    /// Of each file the names at its top, with what each means.
    pub tops: Vec<Table<&'a str, Target<'f, 'a>>>,
    /// The places of the items in their order.
    pub order: Vec<usize>,
}

impl<'f, 'a> Tables<'f, 'a> {
    /// The items of other packages that files name, and no name of theirs yet; refuses attributes
    /// that break a rule of stability before a path to one.
    fn of_others(alloc: Global, files: &'f [PackageFile<'a>]) -> ParseResult<Self>
        ensures visits { IfOk result (λ names. map foreign_view names.visits.items ≡ the_visits files.now) }
        ensures foreign { IfOk result (λ names. AreItemsOf (the_visits files.now) names.foreign) }
        ensures items { IfOk result (λ names. rows names.items ≡ []) }
        ensures kinds { IfOk result (λ names. names.kinds.items ≡ []) }
        ensures tops { IfOk result (λ names. names.tops.items ≡ []) }
        ensures first { Finds (first_in (λ (v : TheVisit). stability_fault v.attributes) (the_visits files.now)) result }
    {
        let visits = foreign_visits(alloc, files)?;
        check_visits(alloc, &visits)?;
        let foreign = ForeignItems::of(alloc, &visits)?;
        Ok(Tables {
            visits,
            foreign,
            items: Table::new(alloc),
            kinds: Vec::new(alloc),
            tops: Vec::new(alloc),
            order: Vec::new(alloc),
        })
    }

    /// Adds a file; refuses a name that occurs twice at its top, and then a path that leads nowhere.
    fn add_file(
        alloc: Global,
        file: &'f PackageFile<'a>,
        declared: &Table<&'a str, Target<'f, 'a>>,
        names: &mut Tables<'f, 'a>,
    ) -> ParseResult<()>
        requires distinct { AllDiffer (map (λ row. row.name) (rows names.old.items) ++ map item_name (file_items file.now)) }
        ensures items { OnOk result (rows names.new.items ≡ rows names.old.items ++ map item_row (file_items file.now)) }
        ensures kinds { OnOk result (names.new.kinds.items ≡ names.old.kinds.items ++ map is_the_world (file_items file.now)) }
        ensures tops { OnOk result (AddsTop file.now names.old.tops.items names.new.tops.items) }
        ensures visits { OnOk result (names.new.visits ≡ names.old.visits) }
        ensures foreign { OnOk result (names.new.foreign ≡ names.old.foreign) }
        ensures first { (is : List TheItem) → AreDeclared is declared.now → Finds (file_fault is file.now) result }
    {
        add_kinds(file, &mut names.kinds)?;
        let top = file_names(alloc, file)?;
        let paths = Paths {
            top: &top,
            declared,
        };
        add_items(alloc, file, paths, &mut names.items)?;
        names.tops.push(top)?;
        Ok(())
    }

    /// Adds files.
    fn add_files(
        alloc: Global,
        files: &'f [PackageFile<'a>],
        declared: &Table<&'a str, Target<'f, 'a>>,
        names: &mut Tables<'f, 'a>,
    ) -> ParseResult<()>
        requires empty { rows names.old.items ≡ [] }
        requires kindless { names.old.kinds.items ≡ [] }
        requires none { names.old.tops.items ≡ [] }
        requires declared { AreDeclared (all_items files.now) declared.now }
        requires distinct { AllDiffer (map item_name (all_items files.now)) }
        ensures names { OnOk result (AreDeclarationsOf files.now names.new) }
        ensures visits { OnOk result (names.new.visits ≡ names.old.visits) }
        ensures foreign { OnOk result (names.new.foreign ≡ names.old.foreign) }
        ensures first { Finds (files_fault files.now) result }
    {
        for file in files {
            Tables::add_file(alloc, file, declared, names)?;
        }
        Ok(())
    }

    /// Adds all files, and puts their items in order; refuses an item that is declared twice.
    fn add_all(
        alloc: Global,
        files: &'f [PackageFile<'a>],
        names: &mut Tables<'f, 'a>,
    ) -> ParseResult<()>
        requires empty { rows names.old.items ≡ [] }
        requires kindless { names.old.kinds.items ≡ [] }
        requires none { names.old.tops.items ≡ [] }
        ensures names { OnOk result (AreDeclarationsOf files.now names.new) }
        ensures order { OnOk result (IsOrder (item_rows files.now) names.new.order.items) }
        ensures visits { OnOk result (names.new.visits ≡ names.old.visits) }
        ensures foreign { OnOk result (names.new.foreign ≡ names.old.foreign) }
        ensures first { FindsBy (IsOr (items_prefix files.now) (IsItemOrderFault files.now)) result }
    {
        let declared = item_names(alloc, files)?;
        Tables::add_files(alloc, files, &declared, names)?;
        drop(declared);
        names.order = table_order(alloc, &names.items)?;
        Ok(())
    }

    /// The tables of files, whatever the `use`s at the top of files name.
    fn gather_items(alloc: Global, files: &'f [PackageFile<'a>]) -> ParseResult<Tables<'f, 'a>>
        ensures tables { IfOk result (AreTablesOf files.now) }
        ensures first { FindsBy (IsOr (names_prefix files.now) (IsItemOrderFault files.now)) result }
    {
        let mut names = Tables::of_others(alloc, files)?;
        Tables::add_all(alloc, files, &mut names)?;
        Ok(names)
    }

    /// Refuses a `use` at the top of a file that has attributes, or whose path is the name of no item.
    fn check_top(
        alloc: Global,
        file: &'f PackageFile<'a>,
        names: &Tables<'f, 'a>,
    ) -> ParseResult<()>
        ensures { (files : List TheFile) → AreTablesOf files names.now → Finds (first_in (top_fault (all_items files)) file.now.decl_list.items.items) result }
    {
        check_top_uses(alloc, file, &names.items)
    }

    /// Refuses, file by file, a `use` at its top that has attributes, or whose path is the name of no item.
    fn check_tops(
        alloc: Global,
        files: &'f [PackageFile<'a>],
        names: &Tables<'f, 'a>,
    ) -> ParseResult<()>
        requires { AreTablesOf files.now names.now }
        ensures { Finds (tops_fault files.now) result }
    {
        for file in files {
            Tables::check_top(alloc, file, names)?;
        }
        Ok(())
    }

    /// The tables of files, which break no rule about names.
    pub fn gather(alloc: Global, files: &'f [PackageFile<'a>]) -> ParseResult<Tables<'f, 'a>>
        ensures tables { IfOk result (AreTablesOf files.now) }
        ensures first { FindsBy (IsNamesFault files.now) result }
    {
        let names = Tables::gather_items(alloc, files)?;
        Tables::check_tops(alloc, files, &names)?;
        Ok(names)
    }
}
