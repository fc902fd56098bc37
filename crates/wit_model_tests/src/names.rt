//! Labels, mangled and folded names, and the getters of setters.
use crate::shared::{check, check_text};
use std::alloc::{AllocError, Global};
use std::test::Fail;
use wit_names::{getter_for_setter, is_mangled, is_setter, laws, validate_id};

/// Labels, with a space between two.
const LABELS: &str = "a a1 a-1b A-b FOO-bar";

/// Words that are no labels; the first one is empty.
const OTHERS: &str = " 1 1a a- a--b -a aB a_b é aé 日本";

/// The first word that is no label, or is one, whichever is wanted; if there is none, `none`.
fn unlike_labels(words: &str, want: bool) -> &str {
    for word in words.split(' ') {
        if validate_id(word).is_ok() != want {
            return word;
        }
    }
    "none"
}

#[test]
fn labels(rt: HostRuntime) -> Result<(), Fail> {
    check_text(&rt, unlike_labels(LABELS, true), "none");
    check_text(&rt, unlike_labels(OTHERS, false), "none");
    Ok(())
}

/// The words of the fault of a text that is no label.
fn fault_of(alloc: Global, text: &str) -> Result<String, AllocError> {
    match validate_id(text) {
        Ok(_) => String::from_str(alloc, "a label"),
        Err(fault) => format!(in alloc; "{fault}"),
    }
}

#[test]
fn long_labels(rt: HostRuntime) -> Result<(), Fail> {
    let alloc = rt.alloc();
    let label = "ab-c2".repeat(alloc, 2_000)?;
    check_text(&rt, fault_of(alloc, label.as_str())?.as_str(), "a label");
    let other = "ab-c-".repeat(alloc, 2_000)?;
    check_text(
        &rt,
        fault_of(alloc, other.as_str())?.as_str(),
        "not a label",
    );
    Ok(())
}

/// Mangled names, with a space between two.
const MANGLED: &str =
    "f [get]f [set]f [constructor]r [method]r.f [method][get]r.f [method][set]r.f [static]r.f [static][get]r.f [static][set]r.f";

/// Texts that are none; the first one is empty.
const UNMANGLED: &str =
    " r.f [get]r.f [method]f [method]r.f.g [constructor]r.f [METHOD]r.f [method]é.f [";

/// The first name that is not mangled, or is, whichever is wanted; if there is none, `none`.
fn unlike_mangled(names: &str, want: bool) -> &str {
    for name in names.split(' ') {
        if is_mangled(name) != want {
            return name;
        }
    }
    "none"
}

#[test]
fn mangled_names(rt: HostRuntime) {
    check_text(&rt, unlike_mangled(MANGLED, true), "none");
    check_text(&rt, unlike_mangled(UNMANGLED, false), "none");
}

/// Whether two names, with a space between them, are mangled, and are the same or not as is wanted.
fn is_pair(alloc: Global, pair: &str, want: bool) -> Result<bool, AllocError> {
    let (first, second) = pair.split_once(' ').unwrap_or((pair, ""));
    if !is_mangled(first) || !is_mangled(second) {
        return Ok(false);
    }
    Ok(laws::equal_by_key(alloc, first, second)? == want)
}

/// The first pair of some lines of which that does not hold; if there is none, `none`.
fn unlike_pairs(alloc: Global, pairs: &str, want: bool) -> Result<&str, AllocError> {
    for pair in pairs.lines() {
        if !is_pair(alloc, pair, want)? {
            return Ok(pair);
        }
    }
    Ok("none")
}

/// Names that are the same in this language.
const SAME: &str = "[method]r.f [static]r.f\n[method]r.r r\nF-oo f-oo";

/// Names that are not.
const APART: &str = "[constructor]r r\n[get]x x\n[method][get]r.r r";

#[test]
fn folded_names(rt: HostRuntime) -> Result<(), Fail> {
    check_text(&rt, unlike_pairs(rt.alloc(), SAME, true)?, "none");
    check_text(&rt, unlike_pairs(rt.alloc(), APART, false)?, "none");
    Ok(())
}

/// Whether the getter of a setter has this name.
fn is_getter(alloc: Global, setter: &str, want: &str) -> Result<bool, AllocError> {
    if !is_setter(setter) {
        return Ok(false);
    }
    Ok(getter_for_setter(alloc, setter)?.as_str() == want)
}

#[test]
fn getters(rt: HostRuntime) -> Result<(), Fail> {
    let alloc = rt.alloc();
    check(&rt, "a function", is_getter(alloc, "[set]x", "[get]x")?);
    let (setter, getter) = ("[method][set]r.x", "[method][get]r.x");
    check(&rt, "a method", is_getter(alloc, setter, getter)?);
    let (setter, getter) = ("[static][set]r.x", "[static][get]r.x");
    check(&rt, "a static one", is_getter(alloc, setter, getter)?);
    check(&rt, "no setter", !is_setter("[get]x"));
    Ok(())
}
