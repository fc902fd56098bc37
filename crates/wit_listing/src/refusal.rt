//! The line of a refusal.
ghost use Rattle.std.specs.Prelude.{◌≡◌, ◌≤◌, ◌<◌, ◌++◌, MatchResult, OnOk, IfOk, string_bytes};
ghost use Rattle.wit_listing.specs.ListingTexts.{Adds};
ghost use Rattle.wit_listing.specs.Output.{IsWritten};
ghost use Rattle.wit_listing.specs.ErrorLine.{IsErrorLine, IsPlaceOf, error_text, first_line, has_place, place_text};

use crate::fault::RunFault;
use crate::output::put;
use std::alloc::{AllocError, Global};
use std::io::Write;
use wit_lex::SourceMap;
use wit_type_tree::ParseError;

/// The start of a text up to its first LF or CR.
fn first_line(text: &str) -> &str
    ensures { result.now ≡ first_line text.now }
{
    let bytes = text.as_bytes();
    for at in 0..bytes.len() {
        if bytes[at] == b'\n' || bytes[at] == b'\r' {
            return &text[..at];
        }
    }
    text
}

/// Whether a refusal has a place in a source: not the one without a header, that of sources that
/// are too large, and the one for a failed allocation.
fn has_place(rule: u8) -> bool
    ensures { result ≡ has_place rule }
{
    rule != 4 && rule != 45 && rule != 52
}

/// The path and the slice where the refusal is, where there is such a place.
fn place_of<'a>(map: &'a SourceMap, fault: &ParseError) -> Option<(&'a str, &'a str)>
    ensures { IsPlaceOf map.now.sources.items fault.now result }
{
    if has_place(fault.rule()) {
        map.locate(fault.span())
    } else {
        None
    }
}

/// The path and the first line of the slice in quotes, `-` and an empty text without a place.
fn push_place(text: &mut String, place: Option<(&str, &str)>) -> Result<(), AllocError>
    ensures { OnOk result (Adds text.old text.new (place_text place.entry)) }
{
    match place {
        Some((path, slice)) => {
            let line = first_line(slice);
            write!(text, "{path} \"{line}\"")
        }
        None => text.push_str("- \"\""),
    }
}

/// The line of a refusal: its number, where it is, and what it says.
fn line_of(alloc: Global, map: &SourceMap, fault: &ParseError) -> Result<String, AllocError>
    ensures { IfOk result (λ line. IsErrorLine map.now.sources.items fault.now (string_bytes line)) }
{
    let place = place_of(map, fault);
    let mut line = String::new(alloc);
    write!(line, "error E{} ", fault.rule())?;
    push_place(&mut line, place)?;
    write!(line, ": {fault}\n")?;
    Ok(line)
}

/// Writes the line of a refusal: `error EN PATH "SLICE": MESSAGE`.
///
/// `PATH` is the source in which the refusal's span lies, `SLICE` what is there up to its first
/// LF or CR. Where it lies in no source, and for the numbers 4, 45 and 52, `PATH` is `-` and
/// `SLICE` empty. Where a write fails or takes no byte, a beginning of the line went out, and
/// not the whole; if an allocation failed, nothing.
pub fn error_line<W: Write>(
    alloc: Global,
    map: &SourceMap,
    fault: &ParseError,
    out: &mut W,
) -> Result<(), RunFault>
    ensures { IsWritten (IsErrorLine map.now.sources.items fault.now) (W.contents out.old) (W.contents out.new) result }
{
    let line = line_of(alloc, map, fault)?;
    put(out, line.as_bytes())
}
