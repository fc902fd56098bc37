//! Reads a package's source from standard input, and writes its listing, or why there is none.
#![tactic(auto)]

use std::process::ExitCode;

/// Answers standard input on standard output, and ends with the status that says what was written.
fn main(rt: HostRuntime) -> ExitCode {
    wit_program::run(rt)
}
