//! The views `pushed` and `alone`: the numbers of the refusals of sources that are pushed one after
//! another, 0 where one is taken, and then the docs of the packages that the taken ones make. For `alone`
//! they are files of one package, in which none is nested.

use crate::listing::shown;
use anyhow::Result;
use std::alloc::{AllocError, Global};
use wit_groups::{GroupResolver, Resolver};
use wit_package_views::read_marked;
use wit_text::SourceMap;
use wit_type_tree::ParseResult;
use wit_views::{Found, rest_after, without_nested};

/// Puts the number of a refusal after a text, or 0.
fn push_rule(text: &mut String, pushed: ParseResult<()>) -> Result<(), AllocError> {
    match pushed {
        Ok(()) => text.push_str("0\n"),
        Err(fault) => write!(text, "{}\n", fault.rule()),
    }
}

/// Pushes each source to a group, and puts the numbers of refusals after a text.
fn push_to_group<'a>(
    alloc: Global,
    resolver: &mut GroupResolver<'a>,
    map: &'a SourceMap,
    text: &mut String,
) -> ParseResult<()> {
    for source in map.sources() {
        let file = read_marked(alloc, source)?;
        push_rule(text, resolver.push(alloc, file))?;
    }
    Ok(())
}

/// Pushes each source as a file of one package, and puts the numbers of refusals after a text.
fn push_alone<'a>(
    alloc: Global,
    resolver: &mut Resolver<'a>,
    map: &'a SourceMap,
    text: &mut String,
) -> ParseResult<()> {
    for source in map.sources() {
        let file = read_marked(alloc, source)?;
        push_rule(text, resolver.push(alloc, file))?;
    }
    Ok(())
}

/// What sources come to that are pushed to a group.
fn grouped(alloc: Global, map: &SourceMap, text: &mut String) -> Found {
    let mut resolver = GroupResolver::new(alloc);
    let pushed = push_to_group(alloc, &mut resolver, map, text);
    rest_after(pushed, resolver.resolve(alloc))
}

/// What sources come to that are pushed as files of one package.
fn alone(alloc: Global, map: &SourceMap, text: &mut String) -> Found {
    let mut resolver = Resolver::new(alloc);
    let pushed = push_alone(alloc, &mut resolver, map, text);
    rest_after(pushed, without_nested(alloc, resolver.resolve(alloc)))
}

/// The numbers of the refusals of sources that are pushed to a group, and the docs of its packages.
pub fn pushed_view(alloc: Global, map: &SourceMap) -> Result<String> {
    let mut text = String::new(alloc);
    let found = grouped(alloc, map, &mut text);
    let docs = shown(alloc, "docs", map, found)?;
    text.push_str(docs.as_str())?;
    Ok(text)
}

/// The numbers of the refusals of sources that are pushed as files of one package, and its docs.
pub fn alone_view(alloc: Global, map: &SourceMap) -> Result<String> {
    let mut text = String::new(alloc);
    let found = alone(alloc, map, &mut text);
    let docs = shown(alloc, "docs", map, found)?;
    text.push_str(docs.as_str())?;
    Ok(text)
}
