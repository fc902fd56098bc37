//! Calls what `tulfjak` has, from sources to output, over the package on standard input, and prints what each
//! call returns. Calls on maps, arenas and other small values are in `tulfjak_values`.
#![tactic(auto)]

mod answers;
mod bare;
mod borrowed;
mod files;
mod functions;
mod items;
mod made;
mod names;
mod outputs;
mod packages;
mod sources;
mod trees;

use std::alloc::Global;
use std::io;
use tulfjak::ParseResult;

/// What all calls return, for the source of a package.
fn calls(alloc: Global, source: &str) -> ParseResult<String> {
    let mut text = String::new(alloc);
    sources::push_sources(alloc, &mut text, source)?;
    files::push_files(alloc, source, &mut text)?;
    made::push_made(alloc, &mut text, source)?;
    outputs::push_outputs(alloc, &mut text, source)?;
    Ok(text)
}

/// Prints what all calls return.
fn main(rt: HostRuntime) -> anyhow::Result<()> {
    let alloc = rt.alloc();
    let source = io::read_to_string(alloc, rt.stdin())?;
    Ok(print!(rt; "{}", calls(alloc, source.as_str())?)?)
}
