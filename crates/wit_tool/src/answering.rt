//! Answering a text.
ghost use Rattle.std.specs.Prelude.{IfOk, IfSome};
ghost use Rattle.wit_tool.specs.Output.{IsPrinted, Writes};
ghost use Rattle.wit_tool.specs.Run.{IsTextGroup};

use crate::running::run;
use std::alloc::Global;
use std::io::Write;
use wit_bundle::bundle;
use wit_groups::UnresolvedPackageGroup;
use wit_lex::SourceMap;
use wit_listing::{RunFault, error_line};

/// Writes the listing of the package that the sources of a text make, and of those that are nested in
/// it, or the line of the refusal, and answers the group that was listed, if one was.
///
/// A line that begins with `=== ` starts a source, whose path is the rest of that line. What comes
/// before the first such line is the source `stdin.wit`, if it is not empty. Where the sources are too
/// large, the refusal has the number 52.
///
/// # Errors
///
/// - `Output`: a write failed or wrote no byte. What went out is a beginning of the text.
/// - `Memory`: an allocation failed outside the resolver. Nothing went out.
pub fn answer_text<W: Write>(
    alloc: Global,
    text: &str,
    out: &mut W,
) -> Result<Option<UnresolvedPackageGroup>, RunFault>
    ensures output { Writes (IsPrinted text.now) (W.contents out.old) (W.contents out.new) result }
    ensures group { IfOk result (λ listed. IfSome listed (IsTextGroup text.now)) }
{
    match bundle(alloc, text) {
        Ok(map) => run(alloc, map, out),
        Err(fault) => {
            if fault.rule() != 52 {
                return Err(RunFault::Memory);
            }
            error_line(alloc, &SourceMap::new(alloc), &fault, out)?;
            Ok(None)
        }
    }
}
