//! Packages with one of each part: their copies, their equality, and their spans, which move together.
use crate::kinds::{add_types, are_types_themselves};
use crate::shared::{SPAN, add, check, first, first_id, push, put, row};
use crate::worlds::{add_interface, add_world, check_interface, check_world};
use semver::Version;
use std::alloc::{AllocError, Global};
use std::cmp::Ordering;
use std::process::Abort;
use std::test::Fail;
use wit_maps::{Table, TextTable};
use wit_model::laws::equality::{
    is_same_docs, is_same_package, is_same_package_name, is_same_stability,
};
use wit_model::laws::order::{compare_package_names, compare_stabilities};
use wit_model::{Arenas, AstItem, ForeignItems, UnresolvedPackage};
use wit_package_names::PackageName;
use wit_types::{Arena, Docs, HasSpans, Stability};
use wit_values::{Rare, Release, Row, Span, Text};

// The name of a package, with a version.
fn package_name(alloc: Global, name: &str) -> Result<PackageName, AllocError> {
    let namespace = Text::from_str(alloc, "a")?;
    let name = Text::from_str(alloc, name)?;
    let version = Some(Release::of(alloc, &Version::new(1, 2, 3))?);
    Ok(PackageName {
        namespace,
        name,
        version,
    })
}

fn stable(alloc: Global) -> Result<Stability, AllocError> {
    let since = Release::of(alloc, &Version::new(1, 0, 0))?;
    let deprecated = Rare::some(alloc, Release::of(alloc, &Version::new(2, 0, 0))?)?;
    Ok(Stability::Stable { since, deprecated })
}

// Puts an interface that one path leads to after others.
fn add_visited(
    alloc: Global,
    items: &mut TextTable<(AstItem, Row<Stability>)>,
) -> Result<(), AllocError> {
    let visits = row(alloc, stable(alloc)?)?;
    put(
        alloc,
        items,
        "i",
        (AstItem::Interface(first_id(alloc)), visits),
    )
}

// Puts a value under the name of a package.
fn set<V: Drop>(
    alloc: Global,
    table: &mut Table<PackageName, V>,
    value: V,
) -> Result<(), AllocError> {
    table.insert(package_name(alloc, "c")?, value)?;
    Ok(())
}

fn fill_foreign(alloc: Global, foreign: &mut ForeignItems, span: Span) -> Result<(), AllocError> {
    let mut items: TextTable<(AstItem, Row<Stability>)> = TextTable::new(alloc);
    add_visited(alloc, &mut items)?;
    set(alloc, &mut foreign.deps, items)?;
    add(&mut foreign.dep_spans, span)?;
    add(&mut foreign.unknown_type_spans, span)?;
    add(
        &mut foreign.required_resource_types,
        (first_id(alloc), span),
    )
}

fn bare(alloc: Global, name: PackageName, span: Span, foreign: ForeignItems) -> UnresolvedPackage {
    UnresolvedPackage::new(
        name,
        Arenas {
            types: Arena::new(alloc),
            interfaces: Arena::new(alloc),
            worlds: Arena::new(alloc),
        },
        Docs::default(),
        span,
        foreign,
    )
}

fn add_bare(
    alloc: Global,
    packages: &mut Vec<UnresolvedPackage>,
    name: &str,
    span: Span,
) -> Result<(), AllocError> {
    let mut foreign = ForeignItems::none(alloc);
    fill_foreign(alloc, &mut foreign, span)?;
    let name = package_name(alloc, name)?;
    push(packages, bare(alloc, name, span, foreign))
}

// Puts a package after others, whose world imports interfaces of these names. All its spans are `span`.
fn add_package(
    alloc: Global,
    packages: &mut Vec<UnresolvedPackage>,
    names: &[&str],
    span: Span,
) -> Result<(), AllocError> {
    add_bare(alloc, packages, "b", span)?;
    if let Some(package) = packages.last_mut() {
        add_types(alloc, &mut package.types, span)?;
        add_interface(alloc, &mut package.interfaces, span)?;
        add_world(alloc, &mut package.worlds, names, span)?;
        package.docs.contents = Some(Text::from_str(alloc, "about it")?);
    }
    Ok(())
}

// Whether each value is its copy.
fn are_copied<T: Clone + PartialEq + Drop>(values: &[T]) -> Result<bool, AllocError> {
    for value in values {
        if value.clone()? != *value {
            return Ok(false);
        }
    }
    Ok(!values.is_empty())
}

// Whether both are the same.
fn are_same(packages: &[UnresolvedPackage]) -> bool {
    let [first, second] = packages else {
        return false;
    };
    is_same_package(first, second)
}

// Whether the spans of the first value can be moved so far.
fn fits<T: HasSpans>(values: &[T], offset: u32) -> bool {
    let Some(value) = values.first() else {
        return false;
    };
    value.spans_fit(offset)
}

// Moves the spans of the first value by 5 bytes.
fn shift<T: HasSpans>(values: &mut [T]) {
    if let Some(value) = values.first_mut() {
        if value.spans_fit(5) {
            value.adjust_spans(5);
        }
    }
}

fn check_docs(rt: &impl Abort, docs: &Docs, stability: &Stability) {
    check(rt, "docs", is_same_docs(docs, docs) && !docs.is_empty());
    check(rt, "a stability", is_same_stability(stability, stability));
    let is_default = stability.is_unknown() && !stability.is_stable();
    check(rt, "the default", is_default);
    let order = compare_stabilities(stability, stability);
    check(rt, "an order of stabilities", order == Ordering::Equal);
}

fn check_name(rt: &impl Abort, name: &PackageName) {
    check(rt, "a name", is_same_package_name(name, name));
    let order = compare_package_names(name, name);
    check(rt, "an order of names", order == Ordering::Equal);
}

// Checks that the parts of the first package are the same as themselves.
fn check_parts(rt: &impl Abort, packages: &[UnresolvedPackage]) -> Result<(), AllocError> {
    let package = packages.first().expect(rt, "one");
    check_name(rt, &package.name);
    check(rt, "types", are_types_themselves(&package.types));
    let interface = first(&package.interfaces).expect(rt, "one");
    check_interface(rt, interface);
    check_docs(rt, &package.docs, &interface.stability);
    let world = first(&package.worlds).expect(rt, "one");
    check_world(rt, &package.types, world)
}

fn check_spans(rt: &impl Abort, packages: &mut [UnresolvedPackage]) {
    check(rt, "spans differ", !are_same(packages));
    check(rt, "far too far", !fits(packages, u32::MAX));
    check(rt, "too far", !fits(packages, u32::MAX - 4));
    check(rt, "so far", fits(packages, u32::MAX - 5));
    shift(packages);
    check(rt, "spans are the same", are_same(packages));
}

#[test]
fn packages_are_copied_and_move(rt: HostRuntime) -> Result<(), Fail> {
    let alloc = rt.alloc();
    let moved = Span { start: 8, end: 10 };
    let mut packages = Vec::new(alloc);
    add_package(alloc, &mut packages, ["a", "b"].as_slice(), SPAN)?;
    add_package(alloc, &mut packages, ["b", "a"].as_slice(), moved)?;
    check(&rt, "copies", are_copied(packages.as_slice())?);
    check_parts(&rt, packages.as_slice())?;
    check_spans(&rt, packages.as_mut_slice());
    Ok(())
}

fn check_default(rt: &impl Abort, packages: &mut [UnresolvedPackage]) {
    check(rt, "so far", fits(packages, u32::MAX));
    shift(packages);
    let package = packages.first().expect(rt, "one");
    let moved = Span { start: 5, end: 5 };
    check(rt, "a header", package.package_name_span() == moved);
    check(rt, "too far", !fits(packages, u32::MAX));
}

#[test]
fn default_spans_move(rt: HostRuntime) -> Result<(), Fail> {
    let alloc = rt.alloc();
    let mut packages = Vec::new(alloc);
    add_bare(alloc, &mut packages, "b", Span::default())?;
    check_default(&rt, packages.as_mut_slice());
    Ok(())
}
