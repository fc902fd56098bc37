//! The JSON of a text.
ghost use Rattle.std.specs.Prelude.{◌≡◌, IfOk};
ghost use Rattle.wit_package_program.specs.Answered.{IsAnswered, outcome_line};

use std::alloc::{AllocError, Global};
use std::io::Write;
use wit_listing::RunFault;
use wit_listing::output::put;
use wit_outcome::{Outcome, outcome_json, resolve_text};

/// The JSON of an outcome as a line.
fn line_of(alloc: Global, outcome: &Outcome) -> Result<Vec<u8>, AllocError>
    ensures { IfOk result (λ line. line.items ≡ outcome_line outcome.now) }
{
    let mut line = outcome_json(alloc, outcome)?;
    line.push(b'\n')?;
    Ok(line)
}

/// Writes the JSON of the group that the sources of a text make, or of their refusal, on one line with
/// its end, and answers what it wrote.
///
/// A line that begins with `=== ` starts a source, whose path is the rest of that line. The text before
/// the first such line is the source `stdin.wit`, if it is not empty. If the sources are too large, the
/// refusal has the number 52.
///
/// # Errors
///
/// - `Output`: a write failed or wrote no byte. What was written is a beginning of the line.
/// - `Memory`: an allocation failed outside the resolver. Nothing was written.
pub fn answer_text<W: Write>(alloc: Global, text: &str, out: &mut W) -> Result<Outcome, RunFault>
    ensures { IsAnswered text.now (W.contents out.old) (W.contents out.new) result }
{
    let outcome = resolve_text(alloc, text)?;
    let line = line_of(alloc, &outcome)?;
    put(out, line.as_slice())?;
    Ok(outcome)
}
