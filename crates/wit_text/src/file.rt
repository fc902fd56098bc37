//! Reading a file.
ghost use Rattle.std.specs.Prelude.{◌≡◌, ◌+◌, ◌<◌, ◌^◌, length, IfOk, OnOk, IfErr};
ghost use Rattle.wit_lex.specs.Lexis.{Stops};
ghost use Rattle.wit_grammar.specs.Grammar.{run};
ghost use Rattle.wit_grammar.specs.Seen.{see_file};
ghost use Rattle.wit_grammar.specs.ItemRules.{beginning, file, item_to, items_to_end, package_first};
ghost use Rattle.wit_grammar.specs.Laws.{IsReadAs, IsSpelled, start};
ghost use Rattle.wit_reader.specs.Reading.{ReadsOn, Refuses};
ghost use Rattle.wit_grammar.specs.Trees.{File};
ghost use Rattle.wit_text.specs.Files.{AddsBeginning, AddsItem, AddsItems, AddsPackage, Gives, IsFaultOf, file_with};

use crate::declaration::{PackageItem, read_package_item};
use crate::package::{read_nested, read_package_name};
use std::alloc::Global;
use wit_lex::fault::ReadResult;
use wit_lex::kind::Kind;
use wit_lex::token::next_token;
use wit_lex::word::Word;
use wit_reader::reader::Reader;
use wit_tree::ParseResult;
use wit_tree::tree::{AstItem, DeclList, NestedPackage, PackageFile, PackageName, SourceFile};
use wit_values::{push, shrunk};

/// Reads an item, and adds it to the declarations of the file or to the packages in it.
fn add_item<'a>(
    reader: &mut Reader<'a>,
    items: &mut Vec<AstItem<'a>>,
    nested: &mut Vec<NestedPackage<'a>>,
) -> ReadResult<()>
    ensures adds { OnOk result (AddsItem reader.old items.old items.new nested.old nested.new reader.new) }
    ensures stops { IfErr result (Refuses (item_to 100) reader.old) }
{
    let item = read_package_item(reader)?;
    match item {
        PackageItem::Declaration(declaration) => push(items, declaration)?,
        PackageItem::Package(docs) => {
            let name = read_package_name(reader, docs)?;
            let package = read_nested(reader, name)?;
            push(nested, package)?;
        }
    }
    Ok(())
}

/// Reads what begins with `package` at the start of a file: its header, or a package in it, which is added
/// to the others.
fn read_package<'a>(
    reader: &mut Reader<'a>,
    nested: &mut Vec<NestedPackage<'a>>,
) -> ReadResult<Option<PackageName<'a>>>
    ensures adds { IfOk result (λ it. AddsPackage reader.old it nested.old nested.new reader.new) }
    ensures stops { IfErr result (Refuses package_first reader.old) }
{
    let docs = reader.read_docs()?;
    let name = read_package_name(reader, docs)?;
    if reader.at(Kind::OpenBrace) {
        let package = read_nested(reader, name)?;
        push(nested, package)?;
        return Ok(None);
    }
    let header = reader.closed(name, Kind::Semicolon)?;
    Ok(Some(header))
}

/// Reads what a file begins with: its header, or an item, which is added to the others.
fn read_beginning<'a>(
    reader: &mut Reader<'a>,
    items: &mut Vec<AstItem<'a>>,
    nested: &mut Vec<NestedPackage<'a>>,
) -> ReadResult<Option<PackageName<'a>>>
    ensures adds { IfOk result (λ it. AddsBeginning reader.old it items.old items.new nested.old nested.new reader.new) }
    ensures stops { IfErr result (Refuses beginning reader.old) }
{
    if reader.at_word(Word::Package) {
        let header = read_package(reader, nested)?;
        return Ok(header);
    }
    add_item(reader, items, nested)?;
    Ok(None)
}

/// Reads the items of a file up to the end of the source, and adds them to the others.
fn add_items<'a>(
    reader: &mut Reader<'a>,
    items: &mut Vec<AstItem<'a>>,
    nested: &mut Vec<NestedPackage<'a>>,
) -> ReadResult<()>
    ensures adds { OnOk result (AddsItems reader.old items.old items.new nested.old nested.new reader.new) }
    ensures stops { IfErr result (Refuses items_to_end reader.old) }
{
    'items: while !reader.at(Kind::End) {
        add_item(reader, items, nested)?;
    }
    Ok(())
}

/// The file that has these.
fn source_file<'a>(
    header: Option<PackageName<'a>>,
    declarations: Vec<AstItem<'a>>,
    nested: Vec<NestedPackage<'a>>,
) -> SourceFile<'a>
    ensures { see_file result ≡ file_with header.entry declarations.entry.items nested.entry.items }
{
    SourceFile {
        file: PackageFile {
            package_id: header,
            decl_list: DeclList {
                items: shrunk(declarations),
            },
        },
        nested,
    }
}

/// Reads up to the end of the source.
fn read_whole<'a>(reader: &mut Reader<'a>) -> ReadResult<SourceFile<'a>>
    ensures reads { IfOk result (λ it. ReadsOn file reader.old (see_file it) reader.new) }
    ensures stops { IfErr result (Refuses file reader.old) }
{
    let mut declarations = Vec::new(reader.alloc);
    let mut nested = Vec::new(reader.alloc);
    if reader.at(Kind::End) {
        return Ok(source_file(None, declarations, nested));
    }
    let header = read_beginning(reader, &mut declarations, &mut nested)?;
    add_items(reader, &mut declarations, &mut nested)?;
    Ok(source_file(header, declarations, nested))
}

/// [`read_file`], before a fault becomes a refusal.
fn read_source<'a>(alloc: Global, source: &'a str, offset: u32) -> ReadResult<SourceFile<'a>>
    requires fits { offset + length source.now < 2 ^ 32 }
    ensures reads { IfOk result (λ it. IsReadAs source.now offset (see_file it)) }
    ensures stops { IfErr result (Stops (run file (start source.now offset))) }
{
    let token = next_token(source, 0)?;
    let mut reader = Reader {
        alloc,
        source,
        offset,
        before: 0,
        token,
    };
    let file = read_whole(&mut reader)?;
    Ok(file)
}

/// The tree of a file whose first byte has the place `offset`.
///
/// Its docs, names and words are slices of the source at their spans, which rise in the order of the
/// tree's fields; a `%` before a name belongs to its span alone. The version in a path is
/// after the item's name, and in no span. Docs are the comments between two tokens that begin
/// with `///` or `/**`; their span goes from the first to the end of the last, and is (0, 0) where
/// there is none. That of an attribute goes from its `@` to the end of its `)`. Spans are shifted by
/// `offset`, but for the (0, 0).
///
/// A file that cannot be read is refused under the number and at the place of the first fault:
/// 46 at a character that begins no token, 47 at a token that the grammar does not allow there or a
/// name that is no label (twice the end of the source where it ends too soon), 48 at the first two
/// bytes of a comment without end, 49 at the first word of a type or of a package that is the hundred
/// and first of those in one another, 50 at a version that `semver` refuses, 51 at a number of items
/// over 4,294,967,295, and 45 where memory runs out.
///
/// Nested packages are beside the declarations of the file itself, in source order. Of what is nested
/// in one of them the names alone are kept; all is read by the same rules.
///
/// A version is three numbers joined by `.`, then perhaps `-` and a run, then perhaps `+` and a run,
/// without blanks; a run is the longest text of letters, digits, `-` and those `.` that one of these
/// follows. Where a number or a `.` is wanted and another token is found, that token is refused.
pub fn read_file<'a>(alloc: Global, source: &'a str, offset: u32) -> ParseResult<SourceFile<'a>>
    requires fits { offset + length source.now < 2 ^ 32 }
    ensures spelled { IfOk result (λ it. IsSpelled source.now offset (see_file it)) }
    ensures only { (tree : File) → IsSpelled source.now offset tree → Gives result tree }
    ensures refused { IfErr result (IsFaultOf source.now offset) }
{
    match read_source(alloc, source, offset) {
        Ok(file) => Ok(file),
        Err(e) => Err(e.refusal(alloc, source, offset)),
    }
}
