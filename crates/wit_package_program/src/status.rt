//! The program over any reader and writer, and the status that it ends with.
ghost use Rattle.std.specs.Prelude.{◌≡◌, ◌≤◌, IfSome};
ghost use Rattle.std.specs.Process.{exit_status};
ghost use Rattle.wit_program.specs.Status.{status_of};
ghost use Rattle.wit_package_program.specs.Answered.{is_group};
ghost use Rattle.wit_package_program.specs.Ended.{IsEnded};

use crate::answering::answer_text;
use std::alloc::Global;
use std::io::{Read, Write};
use std::process::ExitCode;
use std::{io, mem};
use wit_outcome::Outcome;
use wit_program::status::exit_code;

/// Whether sources make a group.
fn is_group(outcome: &Outcome) -> bool
    ensures { result ≡ is_group outcome.now }
{
    match outcome {
        Outcome::Group(_) => true,
        Outcome::Refusal(_) => false,
    }
}

/// Writes the JSON of a text and flushes the writer; answers whether it is that of a group.
///
/// The group is not dropped: the program ends after this, and the system takes all its memory back at once.
fn answer_whole<W: Write>(alloc: Global, text: &str, out: &mut W) -> io::Result<bool>
    ensures { IsEnded text.now (W.contents out.old) (W.contents out.new) (status_of result) }
{
    let outcome = answer_text(alloc, text, out)?;
    let made = is_group(&outcome);
    mem::forget(outcome);
    out.flush()?;
    Ok(made)
}

/// Writes the JSON of all that a reader gives.
fn answer_input<R: Read + Drop, W: Write>(alloc: Global, input: R, out: &mut W) -> io::Result<bool>
    ensures { IfSome (R.remaining input) (λ text. IsEnded text (W.contents out.old) (W.contents out.new) (status_of result)) }
{
    let mut text = io::read_to_string(alloc, input)?;
    text.shrink_to_fit();
    answer_whole(alloc, text.as_str(), out)
}

/// Writes the JSON of all that a reader gives, and ends with a status: 0 after the JSON of a group and 1
/// after that of a refusal; 2 if input cannot be read or is not UTF-8, if output fails, and if an
/// allocation fails outside the resolver. With the status 2, what was written is a beginning of the line.
pub fn run_program<R: Read + Drop, W: Write>(alloc: Global, input: R, out: &mut W) -> ExitCode
    ensures status { exit_status result ≤ 2 }
    ensures ended { IfSome (R.remaining input) (λ text. IsEnded text (W.contents out.old) (W.contents out.new) (exit_status result)) }
{
    exit_code(answer_input(alloc, input, out))
}
