//! Names at the top of files, and what paths lead to.
ghost use Rattle.std.specs.Prelude.{◌≡◌, ◌++◌, List, [], map, IfOk, OnOk, string_bytes};
ghost use Rattle.wit_tree.specs.declared.tree.AstItem.TheVariants.{Use as TheUse};
ghost use Rattle.wit_syntax.specs.Source.{Local as TheLocal, TopName as Top, Item, top_name as the_name, top_names as the_names, leads as the_leads, file_items, all_items, top_text};
ghost use Rattle.wit_syntax.specs.Shorthand.{around, itself as the_itself};
ghost use Rattle.wit_syntax.specs.ScopeTables.{local_target};
ghost use Rattle.wit_syntax.specs.Fault.{fault_in};
ghost use Rattle.wit_first.specs.FileFaults.{lost_fault, top_fault};
ghost use Rattle.wit_first.specs.First.{Finds, first_repeat, first_in};
ghost use Rattle.wit_first.specs.NameFaults.{item_names_fault, top_names_fault};
ghost use Rattle.wit_top_names.specs.Checks.{AddsEdge, FindsUnnamed};
ghost use Rattle.wit_top_names.specs.Tops.{target_view, top_view, item_top, AreNamed, AreDeclared};

use crate::declaration::declarations;
use std::alloc::{AllocError, Global};
use wit_maps::Table;
use wit_notes::path_id;
use wit_refusals::refusal::{refuse, refuse_in, refuse_missing};
use wit_tree::ParseResult;
use wit_tree::tree::{AstItem, Id, PackageFile, PackageName, ToplevelUse, UsePath};

/// Where a path leads.
#[derive(Clone, Copy, Debug)]
pub enum Target<'f, 'a> {
    /// To the item of a name.
    Local(Id<'a>),
    /// To an item of a package, by its name there.
    Foreign {
        package: &'f PackageName<'a>,
        name: Id<'a>,
    },
}

/// A name at the top of a file, and what it means.
#[derive(Clone, Copy)]
pub struct TopName<'f, 'a> {
    pub id: Id<'a>,
    pub target: Target<'f, 'a>,
}

/// The names at the top of a file, and the declared items, each with what it means.
#[derive(Clone, Copy)]
pub struct Paths<'n, 'f, 'a> {
    pub top: &'n Table<&'a str, Target<'f, 'a>>,
    pub declared: &'n Table<&'a str, Target<'f, 'a>>,
}

/// What a path says by itself.
fn path_target<'f, 'a>(path: &'f UsePath<'a>) -> Target<'f, 'a>
    ensures { target_view result ≡ the_leads [] path.now }
{
    match path {
        UsePath::Id(id) => Target::Local(*id),
        UsePath::Package { id, name } => Target::Foreign {
            package: id,
            name: *name,
        },
    }
}

/// The name of a declared item, which means itself.
fn itself<'f, 'a>(id: Id<'a>) -> TopName<'f, 'a>
    ensures { top_view result ≡ the_itself id.entry }
{
    TopName {
        id,
        target: Target::Local(id),
    }
}

/// The name at the top of a file that a declaration makes.
fn top_name<'f, 'a>(item: &'f AstItem<'a>) -> TopName<'f, 'a>
    ensures { top_view result ≡ the_name item.now }
{
    match item {
        AstItem::Interface(interface) => itself(interface.name),
        AstItem::World(world) => itself(world.name),
        AstItem::Use(used) => TopName {
            id: used.as_.unwrap_or(path_id(&used.item)),
            target: path_target(&used.item),
        },
    }
}

/// The names at the top of a file, in source order.
fn top_names<'f, 'a>(
    alloc: Global,
    items: &'f [AstItem<'a>],
) -> Result<Vec<TopName<'f, 'a>>, AllocError>
    ensures { IfOk result (λ names. map top_view names.items ≡ map the_name items.now) }
{
    let mut names = Vec::with_capacity(alloc, items.len())?;
    for item in items {
        names.push(top_name(item))?;
    }
    Ok(names)
}

/// Adds the names of the items that a file declares.
fn add_declared<'f, 'a>(
    file: &'f PackageFile<'a>,
    names: &mut Vec<TopName<'f, 'a>>,
) -> Result<(), AllocError>
    ensures { OnOk result (map top_view names.new.items ≡ map top_view names.old.items ++ map item_top (file_items file.now)) }
{
    for item in declarations(file) {
        match item {
            AstItem::Interface(_) | AstItem::World(_) => names.push(top_name(item))?,
            AstItem::Use(_) => {}
        }
    }
    Ok(())
}

/// The names of the items that files declare, in push order and then in source order.
fn declared_names<'f, 'a>(
    alloc: Global,
    files: &'f [PackageFile<'a>],
) -> Result<Vec<TopName<'f, 'a>>, AllocError>
    ensures { IfOk result (λ names. map top_view names.items ≡ map item_top (all_items files.now)) }
{
    let mut names = Vec::new(alloc);
    for file in files {
        add_declared(file, &mut names)?;
    }
    Ok(names)
}

/// The words for a name that occurs twice.
fn repeated(alloc: Global, prefix: &str, name: &str, back: &str) -> Result<String, AllocError>
    ensures { IfOk result (λ words. string_bytes words ≡ around prefix.now name.now back.now) }
{
    format!(in alloc; "{prefix}`{name}`{back}")
}

/// Names with what they mean; refuses one that occurs twice, in words around it.
fn unique_names<'f, 'a>(
    alloc: Global,
    rule: u8,
    prefix: &str,
    back: &str,
    names: &[TopName<'f, 'a>],
) -> ParseResult<Table<&'a str, Target<'f, 'a>>>
    ensures named { IfOk result (AreNamed (map top_view names.now)) }
    ensures first { Finds (first_repeat top_text (λ n. fault_in rule n.id.span (around prefix.now n.id.name.now back.now)) (map top_view names.now)) result }
{
    let mut found = Table::with_capacity(alloc, names.len())?;
    for name in names {
        let id = name.id;
        if found.get_by(id.name).is_some() {
            drop(found);
            let words = repeated(alloc, prefix, id.name, back);
            return Err(refuse_in(rule, id.span, words));
        }
        found.put(id.name, name.target)?;
    }
    Ok(found)
}

/// The names at the top of a file; refuses one that occurs twice.
pub fn file_names<'f, 'a>(
    alloc: Global,
    file: &'f PackageFile<'a>,
) -> ParseResult<Table<&'a str, Target<'f, 'a>>>
    ensures named { IfOk result (AreNamed (the_names file.now)) }
    ensures first { Finds (top_names_fault file.now) result }
{
    let names = top_names(alloc, &file.decl_list.items)?;
    unique_names(alloc, 6, "duplicate name ", " in this file", &names)
}

/// The names of all declared items; refuses one that occurs twice.
pub fn item_names<'f, 'a>(
    alloc: Global,
    files: &'f [PackageFile<'a>],
) -> ParseResult<Table<&'a str, Target<'f, 'a>>>
    ensures declared { IfOk result (AreDeclared (all_items files.now)) }
    ensures first { Finds (item_names_fault files.now) result }
{
    let names = declared_names(alloc, files)?;
    unique_names(alloc, 5, "duplicate item named ", "", &names)
}

/// Refuses a name that is no declared item's.
fn check_declared<V>(alloc: Global, declared: &Table<&str, V>, id: Id<'_>) -> ParseResult<()>
    ensures { (is : List Item) → AreDeclared is declared.now → Finds (lost_fault is (TheLocal id.entry)) result }
{
    if declared.get_by(id.name).is_none() {
        return Err(refuse_missing(alloc, 7, "interface or world", id));
    }
    Ok(())
}

/// Where a path leads in a file with these names at its top: a name at the top leads where that
/// means, every other path where it says.
pub fn leads<'f, 'a>(top: &Table<&'a str, Target<'f, 'a>>, path: &'f UsePath<'a>) -> Target<'f, 'a>
    ensures { (names : List Top) → AreNamed names top.now → target_view result ≡ the_leads names path.now }
{
    match path {
        UsePath::Id(id) => match top.get_by(id.name) {
            Some(target) => *target,
            None => Target::Local(*id),
        },
        UsePath::Package { .. } => path_target(path),
    }
}

/// Adds the name of the item of the package that something leads to, as an edge.
fn add_local<'a>(edges: &mut Vec<Id<'a>>, target: Target<'_, 'a>) -> Result<(), AllocError>
    ensures { OnOk result (edges.new.items ≡ edges.old.items ++ local_target (target_view target.entry)) }
{
    match target {
        Target::Local(id) => edges.push(id)?,
        Target::Foreign { .. } => {}
    }
    Ok(())
}

/// Adds the name of the item of the package that a path leads to, as an edge; refuses a path that is
/// neither a name at the top of its file nor that of a declared item.
pub fn add_edge<'a>(
    alloc: Global,
    paths: Paths<'_, '_, 'a>,
    edges: &mut Vec<Id<'a>>,
    path: &UsePath<'a>,
) -> ParseResult<()>
    ensures edges { OnOk result (AddsEdge paths.entry path.now edges.old.items edges.new.items) }
    ensures first { FindsUnnamed paths.entry path.now result }
{
    match path {
        UsePath::Id(id) => match paths.top.get_by(id.name) {
            Some(target) => add_local(edges, *target)?,
            None => {
                check_declared(alloc, paths.declared, *id)?;
                edges.push(*id)?;
            }
        },
        UsePath::Package { .. } => {}
    }
    Ok(())
}

/// Refuses a path that is a name, but no declared item's.
fn check_original<V>(
    alloc: Global,
    declared: &Table<&str, V>,
    path: &UsePath<'_>,
) -> ParseResult<()>
    ensures { (is : List Item) → AreDeclared is declared.now → Finds (lost_fault is (the_leads [] path.now)) result }
{
    match path {
        UsePath::Id(id) => check_declared(alloc, declared, *id)?,
        UsePath::Package { .. } => {}
    }
    Ok(())
}

/// Refuses a `use` at the top of a file that has attributes, or whose path is a name, but no declared
/// item's.
fn check_top_use<V>(
    alloc: Global,
    declared: &Table<&str, V>,
    used: &ToplevelUse<'_>,
) -> ParseResult<()>
    ensures { (is : List Item) → AreDeclared is declared.now → Finds (top_fault is (TheUse used.now)) result }
{
    if !used.attributes.is_empty() {
        let words = "attributes not allowed on top-level use";
        return Err(refuse(alloc, 9, used.span, words));
    }
    check_original(alloc, declared, &used.item)
}

/// Refuses a `use` among those at the top of a file that has attributes, or whose path is a name, but
/// no declared item's.
pub fn check_top_uses<V>(
    alloc: Global,
    file: &PackageFile<'_>,
    declared: &Table<&str, V>,
) -> ParseResult<()>
    ensures { (is : List Item) → AreDeclared is declared.now → Finds (first_in (top_fault is) file.now.decl_list.items.items) result }
{
    let items = declarations(file);
    for item in items {
        if let AstItem::Use(used) = item {
            check_top_use(alloc, declared, used)?;
        }
    }
    Ok(())
}
