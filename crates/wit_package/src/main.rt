//! Reads a package's sources from standard input, and writes its JSON, or that of its refusal.
#![tactic(auto)]

use std::process::ExitCode;

/// Writes the JSON of standard input to standard output, and ends with the status that says which it is.
fn main(rt: HostRuntime) -> ExitCode {
    wit_package_program::run(rt)
}
