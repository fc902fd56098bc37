//! A text in parts: what comes before a line that starts a source, what that line names, and what
//! comes after it.
ghost use Rattle.std.specs.Prelude.{◌≡◌, ◌+◌, ◌<◌, ◌≤◌, ◌++◌, ◌∷◌, [], length, slice_index, take, IfSome};
ghost use Rattle.std.specs.Option.{option_copied};
ghost use Rattle.wit_bundle.specs.Bundle.{mark, without_end};
ghost use Rattle.wit_bundle.specs.SplitText.{parts, sources_after};

use memchr::memmem;

/// What a line begins with that starts a source.
const MARK: &str = "=== ";

/// The end of a line, and what the next one begins with, which starts a source.
const NEXT: &str = "\n=== ";

/// A text through the LF at a place.
fn through(text: &str, place: usize) -> &str
    requires within { place < length text.now }
    requires feed { slice_index text.now place ≡ 10 }
    ensures { result.now ≡ take (place + 1) text.now }
{
    &text[..place + 1]
}

/// A text up to its first line that starts a source, and what comes after the mark of that line.
pub(crate) fn prefix_of(text: &str) -> (&str, Option<&str>)
    ensures parts { parts text.now ≡ (result.0.now, sources_after (option_copied result.1)) }
    ensures shorter { IfSome result.1 (λ rest_after. length rest_after.now < length text.now) }
{
    if let Some(rest_after) = text.strip_prefix(MARK) {
        return ("", Some(rest_after));
    }
    if memmem::find(text.as_bytes(), NEXT.as_bytes()).is_none() {
        return (text, None);
    }
    match text.split_once(NEXT) {
        Some((prefix, rest_after)) => (through(text, prefix.len()), Some(rest_after)),
        None => (text, None),
    }
}

/// A line without a CR at its end.
fn without_return(line: &str) -> &str
    ensures { result.now ≡ without_end 13 line.now }
{
    match line.strip_suffix('\r') {
        Some(prefix) => prefix,
        None => line,
    }
}

/// The path that comes after the mark of a line, and the text after that line.
pub(crate) fn named(text: &str) -> (&str, &str)
    ensures parts { parts (mark ++ text.now) ≡ ([], (result.0.now, (parts result.1.now).0) ∷ (parts result.1.now).1) }
    ensures shorter { length result.1.now ≤ length text.now }
{
    match text.split_once('\n') {
        Some((line, rest_after)) => (without_return(line), rest_after),
        None => (without_return(text), ""),
    }
}
