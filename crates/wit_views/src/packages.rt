//! The views of packages, and `marked`, their listing: each writes something of a package and of those
//! that are nested in it, or the line of their refusal.

use std::alloc::{AllocError, Global};
use wit_listing::{RunFault, error_line, listing};
use wit_model::UnresolvedPackage;
use wit_package_views::docs::push_docs_of;
use wit_package_views::external_ids::push_ids;
use wit_package_views::foreign::push_foreign;
use wit_package_views::functions::push_functions;
use wit_package_views::layouts::push_layouts;
use wit_package_views::parts::push_parts;
use wit_package_views::spans::{push_required, push_spans};
use wit_text::SourceMap;
use wit_tree::{ParseError, ParseResult};

/// What sources come to: the package that they make and those that are nested in it, or a refusal.
pub type Found = ParseResult<(UnresolvedPackage, Vec<UnresolvedPackage>)>;

/// What files of one package come to, in which none is nested.
pub fn without_nested(alloc: Global, found: ParseResult<UnresolvedPackage>) -> Found {
    match found {
        Ok(package) => Ok((package, Vec::new(alloc))),
        Err(fault) => Err(fault),
    }
}

/// What sources come to that were pushed before: the refusal of a push, or else what was found.
pub fn rest_after(pushed: ParseResult<()>, found: Found) -> Found {
    match pushed {
        Ok(()) => found,
        Err(fault) => Err(fault),
    }
}

/// Puts the docs of a package after a text, where it and its parts are, and what handles require.
fn push_whole(
    text: &mut String,
    map: &SourceMap,
    package: &UnresolvedPackage,
) -> Result<(), AllocError> {
    push_docs_of(text, package)?;
    push_spans(text, map, package)?;
    push_parts(text, map, package)?;
    push_required(text, map, package)
}

/// Puts what the view of this name writes of a package after a text, or that there is no such view.
fn push_view(
    alloc: Global,
    text: &mut String,
    name: &str,
    map: &SourceMap,
    package: &UnresolvedPackage,
) -> Result<(), AllocError> {
    match name {
        "spans" => push_spans(text, map, package),
        "parts" => push_parts(text, map, package),
        "required" => push_required(text, map, package),
        "docs" => push_docs_of(text, package),
        "external-ids" => push_ids(text, package),
        "foreign" => push_foreign(text, package),
        "functions" => push_functions(alloc, text, package),
        "layouts" => push_layouts(text, package),
        "whole" => push_whole(text, map, package),
        "debug" => write!(text, "{package:?}\n"),
        _ => write!(text, "no view `{name}`\n"),
    }
}

/// What the view of this name writes of a package and of those that are nested in it.
fn view_of(
    alloc: Global,
    name: &str,
    map: &SourceMap,
    main: &UnresolvedPackage,
    nested: &[UnresolvedPackage],
) -> Result<String, AllocError> {
    let mut text = String::new(alloc);
    push_view(alloc, &mut text, name, map, main)?;
    for inner in nested {
        push_view(alloc, &mut text, name, map, inner)?;
    }
    Ok(text)
}

/// Writes what the view of this name writes of a package and of those that are nested in it, and answers
/// that they are not refused.
fn write_view(
    alloc: Global,
    name: &str,
    map: &SourceMap,
    main: &UnresolvedPackage,
    nested: &[UnresolvedPackage],
    out: &mut Vec<u8>,
) -> Result<bool, RunFault> {
    if name == "marked" {
        listing(alloc, main, nested, out)?;
        return Ok(true);
    }
    let text = view_of(alloc, name, map, main, nested)?;
    out.extend_from_slice(text.as_bytes())?;
    Ok(true)
}

/// Writes the line of a refusal, and answers that it is one.
fn refuse(
    alloc: Global,
    map: &SourceMap,
    fault: &ParseError,
    out: &mut Vec<u8>,
) -> Result<bool, RunFault> {
    error_line(alloc, map, fault, out)?;
    Ok(false)
}

/// Writes what the view of this name writes of what sources come to, or the line of their refusal, and
/// answers whether they are not refused.
pub fn write_packages(
    alloc: Global,
    name: &str,
    map: &SourceMap,
    found: Found,
    out: &mut Vec<u8>,
) -> Result<bool, RunFault> {
    match found {
        Ok((main, nested)) => write_view(alloc, name, map, &main, &nested, out),
        Err(fault) => refuse(alloc, map, &fault, out),
    }
}
