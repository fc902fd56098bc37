//! The text of docs.
ghost use Rattle.std.specs.Prelude.{◌≡◌, ◌++◌, IfNone, IfOk, IfSome, IsTrue, OnOk, map, string_bytes, [], ◌∷◌};
ghost use Rattle.std.specs.List.{All};
ghost use Rattle.std.specs.Option.{option_copied};
ghost use Rattle.std.specs.Str.{trim_end};
ghost use Rattle.wit_syntax.specs.Docs.{common_indent, ended_lines, joined, unmarked, without_end, without_last_lines, without_spaces};
ghost use Rattle.wit_syntax.specs.Metadata.{docs_of};
ghost use Rattle.wit_notes.specs.Indents.{written_indent};
ghost use Rattle.wit_notes.specs.PlainComments.{IsIndented, IsPlainOf, IsPushed, all_lines, all_said, ends_in_line, first_indent};
ghost use Rattle.wit_notes.specs.Texts.{after_slashes, after_spaces, indent, said};

use memchr::memchr;
use std::alloc::{AllocError, Global};
use wit_names::prefix::rest_after;
use wit_tree::tree;
use wit_types::Docs;
use wit_values::Text;

/// The text without the end, where it has that end.
fn without_end<'t>(text: &'t str, end: &str) -> &'t str
    ensures { result.now ≡ without_end end.now text.now }
{
    match text.strip_suffix(end) {
        Some(prefix) => prefix,
        None => text,
    }
}

/// The text after the slashes that it begins with.
fn after_slashes(text: &str) -> &str
    ensures { result.now ≡ after_slashes text.now }
{
    text.trim_start_matches('/')
}

/// A comment without its marks.
///
/// Most begin with `///`, and are given by that first.
fn unmarked(comment: &str) -> &str
    ensures { result.now ≡ unmarked comment.now }
{
    if let Some(rest) = rest_after(comment, "///") {
        return after_slashes(rest);
    }
    if comment == "/**/" {
        return "";
    }
    match rest_after(comment, "/**") {
        Some(rest) => without_end(rest, "*/"),
        None => after_slashes(comment),
    }
}

/// Whether a text ends with a letter, a digit or another sign of ASCII: then no white space is at its end.
fn ends_in_sign(text: &str) -> bool
    ensures { IsTrue result → text.now ≡ trim_end text.now }
{
    let bytes = text.as_bytes();
    let len = bytes.len();
    if len == 0 {
        return false;
    }
    bytes[len - 1].is_ascii_graphic()
}

/// What a comment says: neither its marks nor the white space at its end. Most have none there.
fn said(comment: &str) -> &str
    ensures { result.now ≡ said comment.now }
{
    let text = unmarked(comment);
    if ends_in_sign(text) {
        return text;
    }
    text.trim_end()
}

/// How many bytes of ASCII white space a text begins with.
fn indent(text: &str) -> usize
    ensures { result ≡ indent text.now }
{
    text.as_bytes()
        .iter()
        .take_while(|b| b.is_ascii_whitespace())
        .count()
}

/// The indent of what a comment says, where it says something.
fn said_indent(comment: &str) -> Option<usize>
    ensures { result ≡ written_indent (said comment.now) }
{
    let text = said(comment);
    if text.is_empty() {
        return None;
    }
    Some(indent(text))
}

/// The least indent of what those comments say that say something; 0 where none does.
fn common_indent(comments: &[&str]) -> usize
    ensures { result ≡ common_indent (map (λ c. said c.now) comments.now) }
{
    comments
        .iter()
        .filter_map(|comment| said_indent(comment))
        .min()
        .unwrap_or(0)
}

/// The indent of the first of what those comments say that say something; 0 where none does.
fn first_indent(comments: &[&str]) -> usize
    ensures { result ≡ first_indent (map (λ c. said c.now) comments.now) }
{
    for comment in comments {
        if let Some(indent) = said_indent(comment) {
            return indent;
        }
    }
    0
}

/// The text after this many spaces, where it begins with them.
fn after_spaces(text: &str, count: usize) -> Option<&str>
    ensures { option_copied result ≡ after_spaces count text.now }
{
    let mut rest = text;
    let mut left = count;
    while left > 0 {
        match rest.strip_prefix(' ') {
            Some(less) => rest = less,
            None => return None,
        }
        left -= 1;
    }
    Some(rest)
}

/// The text without this many spaces in front, where it begins with them.
fn without_spaces(text: &str, count: usize) -> &str
    ensures { result.now ≡ without_spaces count text.now }
{
    match after_spaces(text, count) {
        Some(rest) => rest,
        None => text,
    }
}

/// The text without this many spaces in front, where it begins with them; none if it says something
/// and its indent is less.
fn unindented(text: &str, count: usize) -> Option<&str>
    ensures text { IfSome result (λ rest. rest.now ≡ without_spaces count text.now) }
    ensures some { IfSome result (λ _. IsIndented count text.now) }
    ensures none { IfNone result (IsIndented count text.now → ⊥) }
{
    if let Some(rest) = after_spaces(text, count) {
        return Some(rest);
    }
    if text.is_empty() || count <= indent(text) {
        return Some(text);
    }
    None
}

/// Adds a line and its LF.
fn push_line(text: &mut String, line: &str) -> Result<(), AllocError>
    ensures { OnOk result (string_bytes text.new ≡ string_bytes text.old ++ (line.now ++ 10 ∷ [])) }
{
    text.push_str(line)?;
    text.push('\n')?;
    Ok(())
}

/// Adds the lines of what a comment says, each with an LF.
fn push_lines(text: &mut String, added: &str) -> Result<(), AllocError>
    ensures { OnOk result (string_bytes text.new ≡ string_bytes text.old ++ ended_lines added.now) }
{
    if memchr(b'\n', added.as_bytes()).is_none() {
        return push_line(text, added);
    }
    for line in added.lines() {
        push_line(text, line)?;
    }
    Ok(())
}

/// Takes the LFs at the end off.
fn drop_last_lines(text: &mut String)
    ensures { string_bytes text.new ≡ without_last_lines (string_bytes text.old) }
{
    let end = text.as_str().trim_end_matches('\n').len();
    text.truncate(end);
}

/// Room for what comments say, each with an LF: no more than the comments, whose marks are longer.
fn room(comments: &[&str]) -> usize {
    let mut room: usize = 0;
    for comment in comments {
        room = room.saturating_add(comment.len());
    }
    room
}

/// Whether a text ends with an LF.
fn ends_in_line(text: &str) -> bool
    ensures { result ≡ ends_in_line text.now }
{
    let bytes = text.as_bytes();
    let len = bytes.len();
    if len == 0 {
        return false;
    }
    bytes[len - 1] == b'\n'
}

/// Adds a text with an LF after it: these are its lines, unless a CR is in it. Only one that ends
/// with an LF, as nothing that a comment says does, is looked through.
fn push_plain(text: &mut String, added: &str) -> Result<(), AllocError>
    ensures { OnOk result (IsPushed (string_bytes text.old) (string_bytes text.new) added.now) }
{
    if ends_in_line(added) {
        return push_lines(text, added);
    }
    push_line(text, added)
}

/// What comments say, line by line without this many spaces, unless a CR is in it; none if the
/// indent of one is less.
fn plain_lines(alloc: Global, comments: &[&str], count: usize) -> Result<Option<String>, AllocError>
    ensures lines { IfOk result (λ found. IfSome found (λ text. IsPlainOf count comments.now (string_bytes text))) }
    ensures some { IfOk result (λ found. IfSome found (λ _. All (λ c. IsIndented count (said c.now)) comments.now)) }
    ensures none { IfOk result (λ found. IfNone found (All (λ c. IsIndented count (said c.now)) comments.now → ⊥)) }
{
    let mut text = String::with_capacity(alloc, room(comments))?;
    for comment in comments {
        match unindented(said(comment), count) {
            Some(added) => push_plain(&mut text, added)?,
            None => return Ok(None),
        }
    }
    Ok(Some(text))
}

/// What comments say, line by line without this many spaces.
fn all_lines(alloc: Global, comments: &[&str], count: usize) -> Result<String, AllocError>
    ensures { IfOk result (λ text. string_bytes text ≡ all_lines count (map (λ c. said c.now) comments.now)) }
{
    let mut text = String::with_capacity(alloc, room(comments))?;
    for comment in comments {
        push_lines(&mut text, without_spaces(said(comment), count))?;
    }
    Ok(text)
}

/// What comments say, line by line without the spaces that they have in common.
///
/// The indent of the first is mostly the least, and a CR is in few: so what is written while this is
/// found out is mostly what is wanted, and else is written anew.
fn common_lines(alloc: Global, comments: &[&str]) -> Result<String, AllocError>
    ensures { IfOk result (λ text. string_bytes text ≡ all_lines (common_indent (all_said comments.now)) (all_said comments.now)) }
{
    if let Some(text) = plain_lines(alloc, comments, first_indent(comments))? {
        if memchr(b'\r', text.as_str().as_bytes()).is_none() {
            return Ok(text);
        }
    }
    all_lines(alloc, comments, common_indent(comments))
}

/// What comments say, joined.
fn joined(alloc: Global, comments: &[&str]) -> Result<String, AllocError>
    ensures { IfOk result (λ text. string_bytes text ≡ joined (map (λ c. said c.now) comments.now)) }
{
    let mut text = common_lines(alloc, comments)?;
    drop_last_lines(&mut text);
    Ok(text)
}

/// The docs that comments give.
///
/// From a comment that begins with `/**` this prefix is taken, and the `*/` at its end; `/**/` says
/// nothing. From any other comment all slashes at its start are taken. Then white space at the end
/// is taken from each. Where all that is not empty begins with at least n bytes of ASCII white
/// space, and n is the most, n spaces are taken from each text that begins with them. The texts
/// are line by line, with LF at the end of a line and an empty line for an empty text; LFs at
/// the end of all are taken. No comment gives no contents.
///
/// The error is a failed allocation.
pub fn docs(alloc: Global, docs: &tree::Docs<'_>) -> Result<Docs, AllocError>
    ensures { IfOk result (λ d. d ≡ docs_of docs.now) }
{
    let comments = docs.docs.as_slice();
    if comments.is_empty() {
        return Ok(Docs { contents: None });
    }
    let text = joined(alloc, comments)?;
    Ok(Docs {
        contents: Some(Text::from(text)),
    })
}
