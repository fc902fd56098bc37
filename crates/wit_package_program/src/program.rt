//! The program over standard input and standard output.

use crate::status::run_program;
use std::io::BufWriter;
use std::process::ExitCode;
use wit_program::status::exit_code;

/// Writes the JSON of standard input to standard output, and ends with the status that says which it is.
pub fn run(rt: HostRuntime) -> ExitCode {
    let alloc = rt.alloc();
    match BufWriter::new(alloc, rt.stdout()) {
        Ok(mut out) => run_program(alloc, rt.stdin(), &mut out),
        Err(fault) => exit_code(Err(fault)),
    }
}
