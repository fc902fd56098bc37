//! Replays the cases of the files of rows: sources, and what is written of them.
#![tactic(auto)]

mod cases;
mod cuts;
mod escapes;
mod lines;
mod listing;
mod narrow;
mod pushed;
mod replay;
mod sources;
mod statuses;
mod times;
mod views;

use crate::replay::replay;
use crate::statuses::status_of_full;
use std::fs;
use std::process::ExitCode;

/// The files of rows.
const FILES: [&str; 27] = [
    "listings.rows",
    "refusals.rows",
    "files.rows",
    "inputs.rows",
    "attributes.rows",
    "docs.rows",
    "external_ids.rows",
    "spans.rows",
    "required.rows",
    "reader.rows",
    "trees.rows",
    "names.rows",
    "notes.rows",
    "scopes.rows",
    "model.rows",
    "worked.rows",
    "cuts.rows",
    "hostile.rows",
    "made.rows",
    "made_parts.rows",
    "edges.rows",
    "worlds.rows",
    "paths.rows",
    "groups.rows",
    "inline.rows",
    "pushed.rows",
    "tool.rows",
];

/// Replays each file, and says how many cases it has, and then the program's status where output fails; ends
/// with 0 if each case is answered as it says.
fn main(rt: HostRuntime) -> anyhow::Result<ExitCode> {
    let mut status = ExitCode::SUCCESS;
    for file in FILES.iter() {
        let text = fs::read_to_string(&rt, *file)?;
        if !replay(&rt, rt.alloc(), file, text.as_str())? {
            status = ExitCode::FAILURE;
        }
    }
    println!(rt; "/dev/full {}", status_of_full(&rt, rt.alloc())?)?;
    Ok(status)
}
