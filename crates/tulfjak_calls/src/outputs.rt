//! What is written of groups and of refusals.

use crate::answers::{push_answer, push_shown};
use std::alloc::{AllocError, Global};
use std::str;
use tulfjak::output::{
    Place, RunFault, answer_text, error_line, group_json, listing, outcome_json, refusal_json, run,
};
use tulfjak::resolve::{Outcome, resolve, resolve_text};
use tulfjak::source::bundle;
use tulfjak::{ParseError, ParseResult, SourceMap, UnresolvedPackageGroup};

/// A source that is refused at its end.
const CUT: &str = "world w";

/// A package in which another one is nested, with an interface after it.
const PAIR: &str = "package a:b; package c:d { interface i {} } interface j {}";

/// Adds what was written.
fn push_bytes(text: &mut String, bytes: &[u8]) -> Result<(), AllocError> {
    text.push_str(str::from_utf8(bytes).unwrap_or("?"))?;
    text.push_str("\n")
}

/// Whether a value was returned.
fn is_answered<T: Drop>(outcome: Result<Option<T>, RunFault>) -> bool {
    match outcome {
        Ok(Some(_)) => true,
        Ok(None) => false,
        Err(_) => false,
    }
}

/// Adds the listing of a group.
fn push_listing(
    alloc: Global,
    text: &mut String,
    group: &UnresolvedPackageGroup,
) -> Result<(), AllocError> {
    let mut out: Vec<u8> = Vec::new(alloc);
    push_answer(text, "listing", &listing(alloc, group, &mut out))?;
    push_bytes(text, &out)
}

/// Adds the listing and the JSON of a group.
fn push_group(
    alloc: Global,
    text: &mut String,
    group: &UnresolvedPackageGroup,
) -> Result<(), AllocError> {
    push_listing(alloc, text, group)?;
    push_answer(text, "clone", &(group.clone()? == *group))?;
    let sources = group.source_map.sources();
    let json = group_json(alloc, sources, &group.main, group.nested.as_slice())?;
    push_bytes(text, &json)
}

/// Adds the line of a refusal.
fn push_refusal(
    alloc: Global,
    text: &mut String,
    map: &SourceMap,
    refusal: &ParseError,
) -> Result<(), AllocError> {
    let mut out: Vec<u8> = Vec::new(alloc);
    push_answer(
        text,
        "error_line",
        &error_line(alloc, map, refusal, &mut out),
    )?;
    push_bytes(text, &out)
}

/// Adds what is written of a text that is parsed.
fn push_parsed(alloc: Global, text: &mut String, source: &str) -> Result<(), AllocError> {
    match UnresolvedPackageGroup::parse(alloc, "stdin.wit", source) {
        Ok(group) => push_group(alloc, text, &group),
        Err((map, refusal)) => push_refusal(alloc, text, &map, &refusal),
    }
}

/// Adds whether the listing of a source is written of its sources, and of its text.
fn push_runs(alloc: Global, text: &mut String, source: &str) -> ParseResult<()> {
    let map = bundle(alloc, source)?;
    let mut out: Vec<u8> = Vec::new(alloc);
    let ran = is_answered(run(alloc, map, &mut out));
    let listed = is_answered(answer_text(alloc, source, &mut out));
    push_answer(text, "run", &(ran, listed, out.len()))?;
    Ok(())
}

/// Adds the outcome of a source.
fn push_outcome(alloc: Global, text: &mut String, outcome: &Outcome) -> Result<(), AllocError> {
    match outcome {
        Outcome::Group(_) => push_answer(text, "Outcome::Group", &true)?,
        Outcome::Refusal(plain) => push_answer(text, "Outcome::Refusal", &plain.message)?,
    }
    let json = outcome_json(alloc, outcome)?;
    push_answer(text, "outcome_json", &json.len())
}

/// Adds the words of faults, and the JSON of refusals in plain fields.
fn push_plain(alloc: Global, text: &mut String) -> Result<(), AllocError> {
    push_shown(text, "RunFault::Output", &RunFault::Output)?;
    push_shown(text, "RunFault::Memory", &RunFault::Memory)?;
    push_bytes(text, &refusal_json(alloc, 45, None, "out of memory")?)?;
    let place = Place {
        path: "a.wit",
        start: 7,
        end: 7,
    };
    push_bytes(
        text,
        &refusal_json(alloc, 47, Some(place), "unexpected token")?,
    )
}

/// Adds what is written of a source, and of one that is refused.
pub fn push_outputs(alloc: Global, text: &mut String, source: &str) -> ParseResult<()> {
    push_parsed(alloc, text, source)?;
    push_parsed(alloc, text, CUT)?;
    push_parsed(alloc, text, PAIR)?;
    push_runs(alloc, text, source)?;
    push_outcome(alloc, text, &resolve(alloc, bundle(alloc, source))?)?;
    push_outcome(alloc, text, &resolve_text(alloc, CUT)?)?;
    push_plain(alloc, text)?;
    Ok(())
}
