//! Writing a text out.
ghost use Rattle.wit_listing.specs.Output.{Puts};

use crate::fault::RunFault;
use std::io::Write;

/// Writes a text; where a write fails or takes no byte, a beginning of it and not the whole.
pub fn put<W: Write>(out: &mut W, text: &[u8]) -> Result<(), RunFault>
    ensures { Puts (W.contents out.old) (W.contents out.new) text.now result }
{
    let len = text.len();
    let mut at = 0;
    while at < len {
        match out.write(&text[at..]) {
            Ok(0) | Err(_) => return Err(RunFault::Output),
            Ok(count) => at += count,
        }
    }
    Ok(())
}
