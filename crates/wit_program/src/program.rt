//! The program over standard input and standard output.

use crate::status::{exit_code, run_program};
use std::io::BufWriter;
use std::process::ExitCode;

/// Answers standard input on standard output, and ends with the status that says what was written.
pub fn run(rt: HostRuntime) -> ExitCode {
    let alloc = rt.alloc();
    match BufWriter::new(alloc, rt.stdout()) {
        Ok(mut out) => run_program(alloc, rt.stdin(), &mut out),
        Err(fault) => exit_code(Err(fault)),
    }
}
