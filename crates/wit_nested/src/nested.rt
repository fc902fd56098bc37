//! Nested packages, each as a file of its own.
ghost use Rattle.std.specs.Prelude.{◌≡◌, [], IfErr, IfOk, map};
ghost use Rattle.std.specs.List.{AllZip};
ghost use Rattle.wit_syntax.specs.Broken.{Refused};
ghost use Rattle.wit_nested.specs.Nested.{IsBrokenAmong, IsBrokenNested, IsMadeByNested};
ghost use Rattle.wit_nested.specs.NestedSources.{IsSourceOf};
ghost use Rattle.wit_nested.specs.PushFaults.{FindsWalked, nested_fault};
ghost use Rattle.wit_first.specs.First.{first_in};

use std::alloc::{AllocError, Global};
use wit_model::UnresolvedPackage;
use wit_parser::Resolver;
use wit_tree::ParseResult;
use wit_tree::tree::{DeclList, NestedPackage, PackageFile, PackageName, SourceFile};

/// A source of a file in which no package is nested.
pub(crate) fn alone<'a>(alloc: Global, file: PackageFile<'a>) -> SourceFile<'a>
    ensures file { result.file ≡ file.entry }
    ensures nested { result.nested.items ≡ [] }
{
    SourceFile {
        file,
        nested: Vec::new(alloc),
    }
}

/// Packages of these names, with nothing in them.
fn named<'a>(
    alloc: Global,
    names: Vec<PackageName<'a>>,
) -> Result<Vec<NestedPackage<'a>>, AllocError>
    ensures { IfOk result (λ nested. map (λ n. n.name) nested.items ≡ names.entry.items) }
{
    let mut nested = Vec::new(alloc);
    for name in names {
        nested.push(NestedPackage {
            name,
            decl_list: DeclList {
                items: Vec::new(alloc),
            },
            nested: Vec::new(alloc),
        })?;
    }
    Ok(nested)
}

/// A nested package as a source of its own.
fn own_source<'a>(alloc: Global, inner: NestedPackage<'a>) -> Result<SourceFile<'a>, AllocError>
    ensures { IfOk result (IsSourceOf inner.entry) }
{
    let NestedPackage {
        name,
        decl_list,
        nested,
    } = inner;
    let nested = named(alloc, nested)?;
    let file = PackageFile {
        package_id: Some(name),
        decl_list,
    };
    Ok(SourceFile { file, nested })
}

/// The package that a nested one makes.
fn resolve_one(alloc: Global, inner: NestedPackage<'_>) -> ParseResult<UnresolvedPackage>
    ensures made { IfOk result (IsMadeByNested inner.entry) }
    ensures first { FindsWalked (λ walk. nested_fault walk inner.entry) result }
    ensures refused { IfErr result (Refused (IsBrokenNested inner.entry)) }
{
    let source = own_source(alloc, inner)?;
    let mut resolver = Resolver::new(alloc);
    resolver.push(alloc, source)?;
    resolver.resolve(alloc)
}

/// The packages that nested ones make, in their order.
pub(crate) fn resolve_all(
    alloc: Global,
    nested: Vec<NestedPackage<'_>>,
) -> ParseResult<Vec<UnresolvedPackage>>
    ensures made { IfOk result (λ made. AllZip IsMadeByNested nested.entry.items made.items) }
    ensures first { FindsWalked (λ walk. first_in (nested_fault walk) nested.entry.items) result }
    ensures refused { IfErr result (Refused (IsBrokenAmong nested.entry.items)) }
{
    let mut made = Vec::new(alloc);
    for inner in nested {
        made.push(resolve_one(alloc, inner)?)?;
    }
    Ok(made)
}
