//! From sources to packages, by each way there is.

use crate::answers::push_answer;
use crate::borrowed::push_borrowed;
use crate::packages::push_package;
use crate::trees::read;
use std::alloc::Global;
use tulfjak::source::bundle;
use tulfjak::{
    GroupResolver, PackageRef, ParseResult, ResolvedGroup, ResolvedPackage, Resolver, SourceMap,
    UnresolvedPackage, UnresolvedPackageGroup,
};

/// A package in which another one is nested.
const NESTED: &str = "\
package a:b@1.0.0;
interface i {
  use c:d/e.{t};
  resource r {
    m: func(x: t) -> future<u8>;
  }
  type s = r;
  f: func(x: borrow<s>);
}
world w {
  import i;
  import g: func();
  export h: interface {
    use i.{s};
  }
  type v = u8;
}
package k:l {
  interface j {}
}
";

/// A resolver with a source, as a file by itself.
fn resolver_of<'a>(alloc: Global, source: &'a str) -> ParseResult<Resolver<'a>> {
    let mut resolver = Resolver::new(alloc);
    resolver.push(alloc, read(alloc, source)?)?;
    Ok(resolver)
}

/// Whether a source by itself makes a package.
fn is_alone(alloc: Global, source: &str, package: &UnresolvedPackage) -> ParseResult<bool> {
    let resolver = resolver_of(alloc, source)?;
    let made = resolver.resolve(alloc)?;
    Ok(made == *package)
}

/// The place of the last type of a package.
fn last_type(package: &PackageRef<'_>) -> usize {
    let mut last = 0;
    for ty in package.types() {
        last = ty.id().index();
    }
    last
}

/// Whether a source by itself makes a package that can be borrowed.
fn is_resolved(alloc: Global, source: &str, package: &UnresolvedPackage) -> ParseResult<bool> {
    let made = ResolvedPackage::resolve(alloc, resolver_of(alloc, source)?)?;
    let is_same = *made.as_ref().get() == *package;
    let last = last_type(&made.as_ref());
    let owned = made.into_package();
    Ok(is_same && owned == *package && last.checked_add(1) == Some(owned.types.len()))
}

/// Whether a source makes a group of a package alone.
fn is_main(alloc: Global, source: &str, package: &UnresolvedPackage) -> ParseResult<bool> {
    let mut resolver = GroupResolver::new(alloc);
    resolver.push(alloc, read(alloc, source)?)?;
    let (main, nested) = resolver.resolve(alloc)?;
    Ok(main == *package && nested.is_empty())
}

/// Whether sources make a group.
fn is_group(alloc: Global, map: SourceMap, group: &UnresolvedPackageGroup) -> bool {
    match UnresolvedPackageGroup::from_sources(alloc, map) {
        Ok(made) => made == *group,
        Err(_) => false,
    }
}

/// Whether sources make a group that can be borrowed.
fn is_borrowed(alloc: Global, map: SourceMap, group: &UnresolvedPackageGroup) -> bool {
    match ResolvedGroup::from_sources(alloc, map) {
        Ok(made) => made.into_group() == *group,
        Err(_) => false,
    }
}

/// Whether a source makes a group.
fn is_parsed(alloc: Global, source: &str, group: &UnresolvedPackageGroup) -> bool {
    match UnresolvedPackageGroup::parse(alloc, "stdin.wit", source) {
        Ok(made) => made == *group,
        Err(_) => false,
    }
}

/// Adds whether each way makes the same group.
fn push_ways(
    alloc: Global,
    text: &mut String,
    source: &str,
    group: &UnresolvedPackageGroup,
) -> ParseResult<()> {
    let main = &group.main;
    let alone = (
        is_alone(alloc, source, main)?,
        is_main(alloc, source, main)?,
    );
    push_answer(text, "Resolver::resolve", &alone)?;
    push_answer(text, "ResolvedPackage", &is_resolved(alloc, source, main)?)?;
    push_answer(text, "parse", &is_parsed(alloc, source, group))?;
    let is_made = is_group(alloc, bundle(alloc, source)?, group);
    let is_borrowed = is_borrowed(alloc, bundle(alloc, source)?, group);
    push_answer(text, "from_sources", &(is_made, is_borrowed))?;
    Ok(())
}

/// The group of a source.
fn group_of(alloc: Global, source: &str) -> ParseResult<ResolvedGroup> {
    match ResolvedGroup::parse(alloc, "stdin.wit", source) {
        Ok(group) => Ok(group),
        Err((_, refusal)) => Err(refusal),
    }
}

/// Adds what calls on a group return.
fn push_group(
    alloc: Global,
    text: &mut String,
    source: &str,
    group: &ResolvedGroup,
) -> ParseResult<()> {
    push_ways(alloc, text, source, group.get())?;
    push_package(alloc, text, &group.get().main)?;
    push_borrowed(alloc, group, text)?;
    Ok(())
}

/// Adds what calls on a group with a nested package return.
fn push_nested(alloc: Global, text: &mut String) -> ParseResult<()> {
    let group = group_of(alloc, NESTED)?;
    push_borrowed(alloc, &group, text)?;
    Ok(())
}

/// Adds what calls on groups return.
pub fn push_made(alloc: Global, text: &mut String, source: &str) -> ParseResult<()> {
    push_nested(alloc, text)?;
    let group = group_of(alloc, source)?;
    push_group(alloc, text, source, &group)
}
