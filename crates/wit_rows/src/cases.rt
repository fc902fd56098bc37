//! A file of rows, case by case.
//!
//! Lines before the first case are comments. A case begins with a line `--- NAME VIEW`. After it are
//! sources, a line `=>`, and what the view writes of them, to the last LF. A line `=== PATH` is
//! before each source; where there is none, the text is the source `stdin.wit`. The LF at the end of a
//! source's last line is none of its bytes. For the views `input`, `sources` and `large` a text is there,
//! as the program has it from standard input; the LF before `=>` is none of its bytes. Where `\` ends the
//! name, what `crate::escapes` says is written for other letters, and for `large` what `crate::times` says.

use crate::escapes::unescape;
use crate::times::unfold;
use std::alloc::{AllocError, Global};

/// What begins a case.
pub const CASE: &str = "\n--- ";

/// A case of a file of rows.
#[derive(Drop)]
pub struct Case {
    /// Its name.
    pub name: String,
    /// Which view of its sources it asks for.
    pub view: String,
    /// Its sources, each after its path.
    pub sources: String,
    /// What the view writes of them.
    pub wanted: String,
}

/// A text as it is meant in a case of this name and view.
fn meant(alloc: Global, name: &str, view: &str, text: &str) -> Result<String, AllocError> {
    if view == "large" {
        unfold(alloc, text)
    } else if name.ends_with('\\') {
        unescape(alloc, text)
    } else {
        String::from_str(alloc, text)
    }
}

/// The case with this first line, these sources and this answer.
fn case_of(
    alloc: Global,
    head: &str,
    sources: &str,
    wanted: &str,
) -> Result<Option<Case>, AllocError> {
    let Some((name, view)) = head.split_once(' ') else {
        return Ok(None);
    };
    Ok(Some(Case {
        name: String::from_str(alloc, name)?,
        view: String::from_str(alloc, view)?,
        sources: meant(alloc, name, view, sources)?,
        wanted: meant(alloc, name, view, wanted)?,
    }))
}

/// The case that a text is, after what begins it, and without the LF at its end.
pub fn read_case(alloc: Global, text: &str) -> Result<Option<Case>, AllocError> {
    let mut whole = String::from_str(alloc, text)?;
    whole.push_str("\n")?;
    let Some((prefix, wanted)) = whole.as_str().split_once("\n=>\n") else {
        return Ok(None);
    };
    let (head, sources) = prefix.split_once('\n').unwrap_or((prefix, ""));
    case_of(alloc, head, sources, wanted)
}
