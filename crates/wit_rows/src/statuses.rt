//! The view `status`: the status with which the program ends over bytes, and what it writes. Each byte is
//! the letter of its number.

use anyhow::Result;
use std::alloc::{AllocError, Global};
use std::fs::{File, Files};
use std::io::BufWriter;
use std::process::ExitCode;
use std::str;
use wit_program::status::run_program;
use wit_text::SourceMap;

/// The bytes that letters are.
fn bytes_of(alloc: Global, text: &str) -> Result<Vec<u8>, AllocError> {
    let mut bytes = Vec::new(alloc);
    for letter in text.chars() {
        bytes.push(u8::try_from(letter as u32).unwrap_or(b'?'))?;
    }
    Ok(bytes)
}

/// The number of a status, if it is one of the program's.
fn number_of(status: ExitCode) -> u8 {
    if status == ExitCode::SUCCESS {
        0
    } else if status == ExitCode::FAILURE {
        1
    } else if status == ExitCode::from(2) {
        2
    } else {
        u8::MAX
    }
}

/// Puts the status over bytes after a text, and what the program writes.
fn push_status(alloc: Global, text: &mut String, input: &str) -> Result<()> {
    let bytes = bytes_of(alloc, input)?;
    let mut out: Vec<u8> = Vec::new(alloc);
    let ended = number_of(run_program(alloc, bytes.as_slice(), &mut out));
    Ok(write!(text, "{ended}\n{}", str::from_utf8(out.as_slice())?)?)
}

/// The status over each source, and what the program writes.
pub fn status_view(alloc: Global, map: &SourceMap) -> Result<String> {
    let mut text = String::new(alloc);
    for source in map.sources() {
        push_status(alloc, &mut text, source.contents.as_str())?;
    }
    Ok(text)
}

/// The status where the device of the output is full.
pub fn status_of_full(files: &impl Files, alloc: Global) -> Result<u8> {
    let mut out = BufWriter::new(alloc, File::create(files, "/dev/full")?)?;
    let input: &[u8] = b"package foo:foo;";
    Ok(number_of(run_program(alloc, input, &mut out)))
}
