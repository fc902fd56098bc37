//! Reading names of packages, and packages that are nested in a file or in one another.
ghost use Rattle.std.specs.Prelude.{◌≡◌, IfOk, OnOk, IfErr};
ghost use Rattle.wit_grammar.specs.Seen.{see_name, see_docs, see_package_id, see_nested};
ghost use Rattle.wit_grammar.specs.ItemRules.{two_names, package_names, package_of, braced, item_to, package_to};
ghost use Rattle.wit_reader.specs.Reading.{Reads, ReadsAs, Refuses};
ghost use Rattle.wit_text.specs.After.{names_after, nested_after, package_after, names_of};
ghost use Rattle.wit_text.specs.Packages.{Skips, kept_items, level_fault, see_items};

use crate::declaration::{PackageItem, read_package_item};
use semver::Version;
use wit_lex::fault::{ReadError, ReadFault, ReadResult};
use wit_lex::kind::Kind;
use wit_lex::word::Word;
use wit_reader::reader::Reader;
use wit_reader::room::add;
use wit_reader::types::MOST_NESTED;
use wit_tree::Span;
use wit_tree::tree::{DeclList, Docs, Id, NestedPackage, PackageName};
use wit_values::{pair_with, push};

/// The name that these make, with the version that was found.
fn package_name<'a>(
    docs: Docs<'a>,
    namespace: Id<'a>,
    name: Id<'a>,
    found: Option<(Span, Version)>,
) -> PackageName<'a>
    ensures { see_package_id result ≡ package_of (see_docs docs.entry) (names_of namespace.entry name.entry found) }
{
    let (end, version) = match found {
        Some((place, version)) => (place.end, Some(version)),
        None => (name.span.end, None),
    };
    let span = Span {
        start: namespace.span.start,
        end,
    };
    PackageName {
        docs,
        span,
        namespace,
        name,
        version,
    }
}

/// Reads `package name:name`.
#[tactic(auto, unfolding(wit_grammar::specs::ItemRules::two_names))]
fn read_names_of_package<'a>(reader: &mut Reader<'a>) -> ReadResult<(Id<'a>, Id<'a>)>
    ensures reads { IfOk result (λ it. Reads two_names reader.old (see_name it.0, see_name it.1) reader.new) }
    ensures stops { IfErr result (Refuses two_names reader.old) }
{
    reader.expect_word(Word::Package)?;
    let namespace = reader.read_label()?;
    let name = reader.read_id()?;
    Ok((namespace, name))
}

/// Reads `package name:name`, perhaps with a version after the name: what is before the
/// `;` of a header, or of the `{` of a nested package.
#[tactic(auto, unfolding(wit_grammar::specs::ItemRules::package_names))]
pub fn read_package_name<'a>(reader: &mut Reader<'a>, docs: Docs<'a>) -> ReadResult<PackageName<'a>>
    ensures reads { IfOk result (λ it. Reads (names_after docs.entry) reader.old (see_package_id it) reader.new) }
    ensures stops { IfErr result (Refuses package_names reader.old) }
{
    let (namespace, name) = read_names_of_package(reader)?;
    let found = reader.read_at_version()?;
    Ok(package_name(docs, namespace, name, found))
}

/// The refusal of the token where no further level of packages is read.
fn refuse_level(reader: &Reader<'_>) -> ReadError
    ensures { result ≡ level_fault reader.now.token }
{
    if reader.at_word(Word::Package) {
        reader.refuse(ReadFault::Nesting)
    } else {
        reader.refuse(ReadFault::Token)
    }
}

/// Reads items in braces, of which nothing is kept, and in them packages of at most `left` levels.
#[cycle(packages)]
fn pass_items(reader: &mut Reader<'_>, left: u8) -> ReadResult<()>
    ensures reads { OnOk result (Skips (braced (item_to left)) reader.old reader.new) }
    ensures stops { IfErr result (Refuses (braced (item_to left)) reader.old) }
{
    reader.expect(Kind::OpenBrace)?;
    'items: while !reader.at(Kind::CloseBrace) {
        pass_item(reader, left)?;
    }
    reader.bump()?;
    Ok(())
}

/// Reads an item, of which nothing is kept: a declaration, or a package of at most `left` levels.
#[cycle(packages)]
fn pass_item(reader: &mut Reader<'_>, left: u8) -> ReadResult<()>
    ensures reads { OnOk result (Skips (item_to left) reader.old reader.new) }
    ensures stops { IfErr result (Refuses (item_to left) reader.old) }
{
    let item = read_package_item(reader)?;
    match item {
        PackageItem::Declaration(declaration) => {
            drop(declaration);
            Ok(())
        }
        PackageItem::Package(docs) => {
            drop(read_inner(reader, docs, left)?);
            Ok(())
        }
    }
}

/// Reads a package of at most `left` levels, which is nested in a nested one: its name is kept.
#[cycle(packages)]
fn read_inner<'a>(reader: &mut Reader<'a>, docs: Docs<'a>, left: u8) -> ReadResult<PackageName<'a>>
    ensures reads { IfOk result (λ it. Reads (package_after docs.entry left) reader.old (see_package_id it) reader.new) }
    ensures stops { IfErr result (Refuses (package_to left) reader.old) }
{
    if left == 0 {
        return Err(refuse_level(reader));
    }
    let header = read_package_name(reader, docs)?;
    let (name, _) = pair_with(header, pass_items(reader, left - 1))?;
    Ok(name)
}

/// Reads the items of a nested package, in braces: its declarations, and the names of the packages
/// that are nested in it in turn.
fn read_nested_items<'a>(
    reader: &mut Reader<'a>,
) -> ReadResult<(DeclList<'a>, Vec<PackageName<'a>>)>
    ensures reads { IfOk result (λ it. ReadsAs (braced (item_to 99)) kept_items reader.old (see_items it) reader.new) }
    ensures stops { IfErr result (Refuses (braced (item_to 99)) reader.old) }
{
    reader.expect(Kind::OpenBrace)?;
    let mut items = Vec::new(reader.alloc);
    let mut inner = Vec::new(reader.alloc);
    'items: while !reader.at(Kind::CloseBrace) {
        let item = read_package_item(reader)?;
        match item {
            PackageItem::Declaration(declaration) => {
                add(&mut items, declaration, reader.at(Kind::CloseBrace))?;
            }
            PackageItem::Package(docs) => {
                let name = read_inner(reader, docs, MOST_NESTED - 1)?;
                push(&mut inner, name)?;
            }
        }
    }
    reader.bump()?;
    Ok((DeclList { items }, inner))
}

/// Reads a nested package after its name: what is in its braces.
pub fn read_nested<'a>(
    reader: &mut Reader<'a>,
    name: PackageName<'a>,
) -> ReadResult<NestedPackage<'a>>
    ensures reads { IfOk result (λ it. Reads (nested_after name.entry) reader.old (see_nested it) reader.new) }
    ensures stops { IfErr result (Refuses (braced (item_to 99)) reader.old) }
{
    let (header, items) = pair_with(name, read_nested_items(reader))?;
    Ok(NestedPackage {
        name: header,
        decl_list: items.0,
        nested: items.1,
    })
}
