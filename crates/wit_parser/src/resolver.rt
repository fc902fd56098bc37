//! From parsed files to a package.
ghost use Rattle.std.specs.Prelude.{◌≡◌, ◌++◌, ◌∷◌, [], Some, IfOk, IfErr, OnOk, OnErr};
ghost use Rattle.std.specs.Option.{option_copied};
ghost use Rattle.wit_syntax.specs.Address.{package_of};
ghost use Rattle.wit_syntax.specs.Broken.{IsBroken, IsLegal, Refused, headers, last_header};
ghost use Rattle.wit_first.specs.First.{Finds, FindsBy};
ghost use Rattle.wit_first.specs.HeaderFaults.{have_docs as the_docs, nesting_fault, other_fault, push_fault};
ghost use Rattle.wit_walk.specs.Walk.{ComesTo};
ghost use Rattle.wit_items.specs.ItemPaths.{header_at};
ghost use Rattle.wit_type_tree.specs.RefusalText.{IsAllocationFailure};
ghost use Rattle.wit_arena.specs.Made.{Makes};
ghost use Rattle.wit_arena.specs.Whole.{first_docs};
ghost use Rattle.wit_arena.specs.Faithful.{IsFaithful, HasArena, IsMadeOf};

use std::alloc::{AllocError, Global};
use wit_contents::contents::resolve_contents;
use wit_items::header::{check_docs, have_docs, is_same, mismatch, package_docs};
use wit_model::UnresolvedPackage;
use wit_notes::package_name;
use wit_package_names::PackageName;
use wit_refusals::refusal::{refuse, refuse_in};
use wit_tree::tree::{self, NestedPackage, PackageFile, SourceFile};
use wit_tree::{ParseResult, Span};
use wit_types::Docs;
use wit_values::pair_with;

/// The words for files without a header.
const NO_HEADER: &str = "no `package` header was found in any WIT file for this package";

/// The words for a package that is nested in a source of another one.
const NESTED: &str = "nested packages must be placed at the top-level";

/// Files of one package, which are to be resolved together.
#[derive(Drop)]
pub struct Resolver<'a> {
    files: Vec<PackageFile<'a>>,
    /// The place of the last file that has a header, or 0 where none has one.
    last: usize,
    /// Whether a file has a header with docs.
    documented: bool,
    pub ghost header: { header_at files.items last ≡ last_header files.items },
    pub ghost docs: { documented ≡ the_docs (headers files.items) },
}

/// Refuses a header that names another package than the one before it.
fn check_same(
    alloc: Global,
    before: &tree::PackageName<'_>,
    own: &tree::PackageName<'_>,
) -> ParseResult<()>
    ensures { Finds (other_fault (Some before.now) (Some own.now)) result }
{
    if is_same(before, own) {
        return Ok(());
    }
    Err(refuse_in(1, own.span, mismatch(alloc, own, before)))
}

/// Refuses a header that names another package than the last one before it.
fn check_header(
    alloc: Global,
    previous: Option<&tree::PackageName<'_>>,
    current: &Option<tree::PackageName<'_>>,
) -> ParseResult<()>
    ensures { Finds (other_fault (option_copied previous.entry) current.now) result }
{
    let Some(before) = previous else {
        return Ok(());
    };
    match current {
        Some(own) => check_same(alloc, before, own),
        None => Ok(()),
    }
}

/// Refuses packages that are nested in a source, at the name of the first.
fn check_nested(alloc: Global, nested: &[NestedPackage<'_>]) -> ParseResult<()>
    ensures { Finds (nesting_fault nested.now) result }
{
    match nested.first() {
        Some(inner) => Err(refuse(alloc, 3, inner.name.span, NESTED)),
        None => Ok(()),
    }
}

/// The name and the docs of a package, by its last header and its files.
fn package_heading(
    alloc: Global,
    files: &[PackageFile<'_>],
    header: &tree::PackageName<'_>,
) -> Result<(PackageName, Docs), AllocError>
    ensures name { IfOk result (λ heading. heading.0 ≡ package_of header.now) }
    ensures docs { IfOk result (λ heading. heading.1 ≡ first_docs (headers files.now)) }
{
    let name = package_name(alloc, header)?;
    let docs = package_docs(alloc, files)?;
    Ok((name, docs))
}

/// The package of files whose last header is this one.
fn resolve_named(
    alloc: Global,
    files: &[PackageFile<'_>],
    header: &tree::PackageName<'_>,
) -> ParseResult<UnresolvedPackage>
    requires header { last_header files.now ≡ Some header.now }
    ensures made { IfOk result (IsMadeOf files.now) }
    ensures first { FindsBy (ComesTo files.now) result }
{
    let made = resolve_contents(alloc, files)?;
    let (contents, heading) = pair_with(made, package_heading(alloc, files, header))?;
    Ok(UnresolvedPackage::new(
        heading.0,
        contents.arenas,
        heading.1,
        header.span,
        contents.foreign,
    ))
}

impl<'a> Resolver<'a> {
    /// A resolver with no file.
    pub fn new(alloc: Global) -> Self
        ensures { result.files.items ≡ [] }
    {
        Resolver {
            files: Vec::new(alloc),
            last: 0,
            documented: false,
        }
    }

    /// The files that were pushed, in that order.
    fn pushed(&self) -> &[PackageFile<'a>]
        ensures { result.now ≡ self.now.files.items }
    {
        &self.files
    }

    /// The header of the last file that has one.
    fn last_header(&self) -> Option<&tree::PackageName<'a>>
        ensures { option_copied result ≡ last_header self.now.files.items }
    {
        let file = self.files.get(self.last)?;
        file.package_id.as_ref()
    }

    /// The package that the files make.
    fn resolve_pushed(&self, alloc: Global) -> ParseResult<UnresolvedPackage>
        ensures made { IfOk result (IsMadeOf self.now.files.items) }
        ensures first { FindsBy (ComesTo self.now.files.items) result }
    {
        let header = match self.last_header() {
            Some(header) => header,
            None => return Err(refuse(alloc, 4, Span::default(), NO_HEADER)),
        };
        resolve_named(alloc, self.pushed(), header)
    }

    /// Keeps a file after the others.
    fn keep(&mut self, file: PackageFile<'a>) -> ParseResult<()>
        ensures ok { OnOk result (self.new.files.items ≡ self.old.files.items ++ file.entry ∷ []) }
        ensures unchanged { OnErr result (self.new.files.items ≡ self.old.files.items) }
        ensures wanted { IfErr result IsAllocationFailure }
    {
        let place = self.files.len();
        let has_header = file.package_id.is_some();
        let documented = have_docs(self.documented, &file.package_id);
        self.files.push(file)?;
        self.documented = documented;
        if has_header {
            self.last = place;
        }
        Ok(())
    }

    /// Adds the file of a source after the others.
    ///
    /// # Errors
    ///
    /// A refusal leaves the files as they were.
    ///
    /// - 1, at the header: it names another package, or another version, than the last header before it.
    /// - 2, at the header's docs: it has docs, and so has a header before it.
    /// - 3, at the nested package's name: the source has one.
    /// - 45: an allocation failed.
    pub fn push(&mut self, alloc: Global, source: SourceFile<'a>) -> ParseResult<()>
        ensures ok { OnOk result (self.new.files.items ≡ self.old.files.items ++ source.entry.file ∷ []) }
        ensures unchanged { OnErr result (self.new.files.items ≡ self.old.files.items) }
        ensures first { Finds (push_fault self.old.files.items source.entry) result }
    {
        let SourceFile { file, nested } = source;
        check_header(alloc, self.last_header(), &file.package_id)?;
        check_docs(alloc, self.documented, &file.package_id)?;
        check_nested(alloc, &nested)?;
        self.keep(file)
    }

    /// The package that the files make.
    ///
    /// The items are in the least order in which each comes after those that it needs: an
    /// interface after those that it uses, a world after those that it includes. The interfaces
    /// and the worlds each keep that order. Each has the names that it uses and then its
    /// definitions, in the least order in which each comes after those that it names; those of a
    /// world are imports. After them come its functions, in source order. In an interface, and on each
    /// side of a world that includes nothing, a setter that is written before its getter comes directly
    /// after it. A world with an include keeps all its setters in place, since a getter may come with
    /// what it includes.
    ///
    /// Among the functions on a side, in source order, a world has the interfaces that it imports or
    /// exports there: each under the interface itself, or under the name that it has in the world.
    /// Inline interfaces come after all declared ones, in the order of the worlds and of their
    /// items. The arena of types has what occurs in the interfaces and then in the worlds, each once,
    /// in the order of first occurrence. Nothing else about the order in the files matters.
    ///
    /// # Errors
    ///
    /// Ok exactly if no rule is broken, unless an allocation fails. Where several are, the first is refused
    /// that is found in this order: 4; 30 to 34 of attributes before a path with a package; 5; file by file
    /// 6, and then 7 of paths that are no name at its top; 7 and 8; 9 and 7 of each `use` at the top of a
    /// file; 30 to 35, 7 and 10 of each other `use`, item by item; then what is in the interfaces, in their
    /// order, and then what is in the worlds, in theirs.
    ///
    /// In an item that is: its own attributes; 12 to 14; 15 and 16; its definitions, in their order; its
    /// includes; 17 of its types; each function, and each interface on a side of a world, with its name; and 18.
    /// What is in an inline interface comes where the world imports or exports it.
    ///
    /// - 4: no file names the package.
    /// - 5: an interface or a world is declared twice.
    /// - 6: a name occurs twice at the top of a file.
    /// - 7, 8: a path leads to no interface or world; interfaces use, or worlds include, one another
    ///   in a cycle.
    /// - 9: a `use` at the top of a file has attributes.
    /// - 10, 11: a `use`, or the path of an import or an export, leads to a world; an include leads to
    ///   an interface.
    /// - 12, 13: a used name is not in its interface, or is a function there.
    /// - 14, 17: a name occurs twice in an interface or a world, exactly, or ignoring case.
    /// - 15, 16: a name in a definition is not in its scope; definitions name one another in a cycle.
    /// - 18: a setter of an interface, or on a side of a world that includes nothing, has no getter
    ///   there.
    /// - 19, 20, 22 to 24: a record, flags, a tuple, a variant or an enum is empty.
    /// - 21: flags have more than 32 flags.
    /// - 25: two fields, flags or cases have one name, ignoring case.
    /// - 26: a map's key type is not allowed.
    /// - 27: a name in a handle does not resolve to a resource.
    /// - 28, 29: a name in a signature is that of a function, or of nothing.
    /// - 30 to 35: attributes break a rule, of an item, a definition, a function, a `use`, an include or
    ///   an interface that is imported or exported.
    /// - 36, 37: a getter has a parameter, or a setter does not have exactly one.
    /// - 38: two parameters have one name, ignoring case.
    /// - 39 to 42: a getter has no result, or the result of a setter or of a constructor has the wrong
    ///   form.
    /// - 43: a world imports, or exports, an interface twice by its path alone.
    /// - 44: an import or an export has the name of something that comes before it on its side.
    /// - 45: an allocation failed.
    pub fn resolve(self, alloc: Global) -> ParseResult<UnresolvedPackage>
        ensures legal { OnOk result (IsLegal self.entry.files.items) }
        ensures made { IfOk result (Makes self.entry.files.items) }
        ensures arena { IfOk result (HasArena self.entry.files.items) }
        ensures faithful { IfOk result (IsFaithful self.entry.files.items) }
        ensures first { FindsBy (ComesTo self.entry.files.items) result }
        ensures refused { IfErr result (Refused (IsBroken self.entry.files.items)) }
    {
        self.resolve_pushed(alloc)
    }
}
