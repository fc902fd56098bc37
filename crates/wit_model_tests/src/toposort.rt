//! Every body that orders a table, on worked tables and on a long chain.
use crate::shared::check_text;
use indexmap::IndexMap;
use std::alloc::Global;
use std::process::Abort;
use std::test::Fail;
use wit_order::{laws, order_steps, toposort, toposort_heap, toposort_scan};
use wit_type_tree::ParseResult;
use wit_type_tree::leaves::Id;
use wit_values::Span;

/// A table a line, the answer of every body, and what `order_steps` counts. A table is rows that
/// end in `;`, each a name, `:` and what it needs. A refusal ends in the index of its needed name.
const CASES: &str = "||0 0
a:;|a |1 0
a:; b:;|a b |2 0
a: b;|0 type `b` does not exist 0|
a:; b: a;|a b |2 1
a: b; b:;|b a |2 1
b:; a:;|b a |2 0
A: u; B:; u:;|B u A |3 1
b: a a; a:;|a b |2 2
x: y; y: z; z: z;|0 type `y` depends on itself 0|
a: b; b: c; c: a;|0 type `b` depends on itself 0|
a: a;|0 type `a` depends on itself 0|
a: c a; b: x; c:;|0 type `x` does not exist 0|
a: c a; b: c; c:;|0 type `a` depends on itself 1|";

/// Puts in a row whose needed names are in a text, parted by spaces. Spans count them.
fn add<'a>(
    rt: &impl Abort,
    alloc: Global,
    deps: &mut IndexMap<&'a str, Vec<Id<'a>>>,
    name: &'a str,
    needs: &'a str,
) -> Result<(), Fail> {
    let mut ids = Vec::new(alloc);
    let mut start = 0;
    for need in needs.split_whitespace() {
        let span = Span { start, end: start };
        ids.push(Id::new(need, span).expect(rt, "a label"))?;
        start = start.saturating_add(1);
    }
    deps.insert(name, ids)?;
    Ok(())
}

/// Checks an answer: the names after one another, or the refusal and at which needed name of its row it is.
fn expect(
    rt: &impl Abort,
    alloc: Global,
    answer: ParseResult<Vec<&str>>,
    wanted: &str,
) -> Result<(), Fail> {
    let mut text = String::new(alloc);
    match answer {
        Ok(names) => {
            for name in &names {
                text.push_str(name)?;
                text.push(' ')?;
            }
        }
        Err(e) => {
            let at = e.span().start;
            let rule = e.rule();
            write!(text, "{rule} {e} {at}")?;
        }
    }
    check_text(rt, text.as_str(), wanted);
    Ok(())
}

/// Checks the answer of the body that counts, and what it counts.
fn expect_counted(
    rt: &impl Abort,
    alloc: Global,
    deps: &IndexMap<&str, Vec<Id<'_>>>,
    wanted: &str,
    counts: &str,
) -> Result<(), Fail> {
    match order_steps(alloc, "type", deps) {
        Ok((names, steps)) => {
            let entered = steps.entered();
            let closed = steps.closed();
            check_text(
                rt,
                format!(in alloc; "{entered} {closed}")?.as_str(),
                counts,
            );
            expect(rt, alloc, Ok(names), wanted)
        }
        Err(e) => expect(rt, alloc, Err(e), wanted),
    }
}

/// Puts in the rows that a text writes.
fn add_all<'a>(
    rt: &impl Abort,
    alloc: Global,
    deps: &mut IndexMap<&'a str, Vec<Id<'a>>>,
    text: &'a str,
) -> Result<(), Fail> {
    for row in text.split(';') {
        if let Some((name, needs)) = row.split_once(':') {
            add(rt, alloc, deps, name.trim(), needs)?;
        }
    }
    Ok(())
}

/// Checks the answer of the body that scans to the table of a text.
fn expect_scanned(rt: &impl Abort, alloc: Global, text: &str, wanted: &str) -> Result<(), Fail> {
    let mut deps = IndexMap::new(alloc);
    add_all(rt, alloc, &mut deps, text)?;
    expect(rt, alloc, toposort_scan(alloc, "type", &deps), wanted)
}

/// Checks the answer of the other bodies to a table.
fn expect_fast(
    rt: &impl Abort,
    alloc: Global,
    deps: &IndexMap<&str, Vec<Id<'_>>>,
    wanted: &str,
    counts: &str,
) -> Result<(), Fail> {
    expect(rt, alloc, toposort(alloc, "type", deps), wanted)?;
    expect(rt, alloc, toposort_heap(alloc, "type", deps), wanted)?;
    expect_counted(rt, alloc, deps, wanted, counts)
}

/// Checks their answer to the table of a text.
fn expect_ordered(
    rt: &impl Abort,
    alloc: Global,
    text: &str,
    wanted: &str,
    counts: &str,
) -> Result<(), Fail> {
    let mut deps = IndexMap::new(alloc);
    add_all(rt, alloc, &mut deps, text)?;
    expect_fast(rt, alloc, &deps, wanted, counts)
}

#[test]
fn orders(rt: HostRuntime) -> Result<(), Fail> {
    let alloc = rt.alloc();
    for case in CASES.lines() {
        let (text, answers) = case.split_once('|').expect(&rt, "a table and its answers");
        let (wanted, counts) = answers.split_once('|').expect(&rt, "two answers");
        expect_scanned(&rt, alloc, text, wanted)?;
        expect_ordered(&rt, alloc, text, wanted, counts)?;
    }
    laws::one_answer();
    laws::same_edges();
    Ok(())
}

#[test]
fn reverses_a_long_chain(rt: HostRuntime) -> Result<(), Fail> {
    let alloc = rt.alloc();
    let mut text = String::from_str(alloc, "n0: ")?;
    let mut wanted = String::from_str(alloc, "n9999 ")?;
    for i in 1..10_000_usize {
        let back = 9_999 - i;
        write!(text, "n{i}; n{i}: ")?;
        write!(wanted, "n{back} ")?;
    }
    expect_ordered(&rt, alloc, text.as_str(), wanted.as_str(), "10000 9999")
}
