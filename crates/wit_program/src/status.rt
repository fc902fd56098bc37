//! The program over any reader and writer, and the status that it ends with.
ghost use Rattle.std.specs.Prelude.{◌≡◌, ◌≤◌, IfSome};
ghost use Rattle.std.specs.Process.{exit_status};
ghost use Rattle.wit_program.specs.Status.{IsEnded, status_of};

use std::alloc::Global;
use std::io::{Read, Write};
use std::process::ExitCode;
use std::{io, mem};
use wit_tool::answer_text;

/// The status: 0 after a listing, 1 after the line of a refusal, 2 where neither was written whole.
pub fn exit_code(answered: io::Result<bool>) -> ExitCode
    ensures { exit_status result ≡ status_of answered }
{
    match answered {
        Ok(true) => ExitCode::SUCCESS,
        Ok(false) => ExitCode::FAILURE,
        Err(_) => ExitCode::from(2),
    }
}

/// Answers a text and pushes out what the writer holds back; answers whether it was a listing.
///
/// The group that was listed is not dropped: the program ends after this, and the system takes all
/// its memory back at once.
fn answer_whole<W: Write>(alloc: Global, text: &str, out: &mut W) -> io::Result<bool>
    ensures { IsEnded text.now (W.contents out.old) (W.contents out.new) (status_of result) }
{
    let listed = answer_text(alloc, text, out)?;
    let is_listing = listed.is_some();
    mem::forget(listed);
    out.flush()?;
    Ok(is_listing)
}

/// Answers all that a reader gives.
fn answer_input<R: Read + Drop, W: Write>(alloc: Global, input: R, out: &mut W) -> io::Result<bool>
    ensures { IfSome (R.remaining input) (λ text. IsEnded text (W.contents out.old) (W.contents out.new) (status_of result)) }
{
    let mut text = io::read_to_string(alloc, input)?;
    text.shrink_to_fit();
    answer_whole(alloc, text.as_str(), out)
}

/// Answers all that a reader gives, and ends with a status: 0 after a listing and 1 after the line
/// of a refusal; 2 where input cannot be read or is not UTF-8, where output fails, and where memory
/// is wanted outside the package. With the status 2, what went out is a beginning of the answer.
pub fn run_program<R: Read + Drop, W: Write>(alloc: Global, input: R, out: &mut W) -> ExitCode
    ensures status { exit_status result ≤ 2 }
    ensures ended { IfSome (R.remaining input) (λ text. IsEnded text (W.contents out.old) (W.contents out.new) (exit_status result)) }
{
    exit_code(answer_input(alloc, input, out))
}
