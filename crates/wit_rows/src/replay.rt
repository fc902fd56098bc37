//! Replays the cases of a file, and says those that differ.

use crate::cases::{CASE, Case, read_case};
use crate::sources::map_for;
use crate::views::view;
use anyhow::{Result, bail};
use std::alloc::Global;

/// What the view of a case writes of its sources.
fn found(alloc: Global, case: &Case) -> Result<String> {
    let name = case.view.as_str();
    match map_for(alloc, name, case.sources.as_str()) {
        Ok(map) => view(alloc, name, map),
        Err(fault) => bail!("{fault}"),
    }
}

/// Replays a case; says on standard error how it differs, and answers whether it does not.
fn replay_case(rt: &impl Eprint, alloc: Global, file: &str, text: &str) -> Result<bool> {
    let Some(case) = read_case(alloc, text)? else {
        eprintln!(rt; "{file}: no case:\n{text}")?;
        return Ok(false);
    };
    let found = found(alloc, &case)?;
    if found.as_str() == case.wanted.as_str() {
        return Ok(true);
    }
    let name = case.name.as_str();
    let wanted = case.wanted.as_str();
    eprintln!(rt; "{file}: {name}: wanted\n{wanted}found\n{found}")?;
    Ok(false)
}

/// Replays the cases of a file, says how many there are, and answers whether none differs.
pub fn replay(rt: &(impl Print + Eprint), alloc: Global, file: &str, text: &str) -> Result<bool> {
    let mut same = true;
    let mut count: u64 = 0;
    for (place, case) in text
        .strip_suffix("\n")
        .unwrap_or(text)
        .split(CASE)
        .enumerate()
    {
        if place > 0 {
            count = count.wrapping_add(1);
            if !replay_case(rt, alloc, file, case)? {
                same = false;
            }
        }
    }
    println!(rt; "{file} {count}")?;
    Ok(same)
}
