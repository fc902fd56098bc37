//! A refusal.
ghost use Rattle.std.specs.Prelude.{◌≡◌, IfOk, IsUtf8, OnOk};
ghost use Rattle.wit_json.specs.ValueTokens.{Adds, AddsMembers, ReadsAs, json_text};
ghost use Rattle.wit_json.specs.Values.{fields};
ghost use Rattle.wit_json.specs.Refusal.{members_at, optional_range, place_members, range_members, range_of, refusal_at};

use crate::member_words::Word;
use crate::members::{open, push_number, push_text};
use crate::output::Output;
use std::alloc::{AllocError, Global};

/// Where a refusal is: a range in the text of one source, in bytes.
#[derive(Clone, Copy)]
pub struct Place<'a> {
    /// The path of the source.
    pub path: &'a str,
    /// The first byte, counted from 0 in this source.
    pub start: u32,
    /// The first byte after the range.
    pub end: u32,
}

fn push_range(out: &mut Output, place: Place<'_>) -> Result<(), AllocError>
    ensures { OnOk result (AddsMembers out.old out.new (range_members (range_of place.entry))) }
{
    push_text(out, Word::Path, place.path)?;
    push_number(out, Word::Start, place.start as usize)?;
    push_number(out, Word::End, place.end as usize)
}

fn push_place(out: &mut Output, place: Option<Place<'_>>) -> Result<(), AllocError>
    ensures { OnOk result (AddsMembers out.old out.new (place_members (optional_range place.entry))) }
{
    match place {
        Some(place) => push_range(out, place),
        None => Ok(()),
    }
}

fn push_refusal(
    out: &mut Output,
    rule: u8,
    place: Option<Place<'_>>,
    message: &str,
) -> Result<(), AllocError>
    ensures { OnOk result (AddsMembers out.old out.new (members_at rule place.entry message.now)) }
{
    push_number(out, Word::Rule, rule as usize)?;
    push_place(out, place)?;
    push_text(out, Word::Message, message)
}

#[tactic(auto, using(crate::proofs::Closing::fields_closed))]
fn write_fields(
    out: &mut Output,
    rule: u8,
    place: Option<Place<'_>>,
    message: &str,
) -> Result<(), AllocError>
    ensures { OnOk result (Adds out.old out.new (fields (members_at rule place.entry message.now))) }
{
    out.begin_object()?;
    push_refusal(out, rule, place, message)?;
    out.end_object()
}

fn write_refusal(
    out: &mut Output,
    rule: u8,
    place: Option<Place<'_>>,
    message: &str,
) -> Result<(), AllocError>
    ensures { OnOk result (Adds out.old out.new (refusal_at rule place.entry message.now)) }
{
    open(out, Word::Error)?;
    write_fields(out, rule, place, message)?;
    out.end_object()
}

/// The JSON of a refusal: the number of its rule, the path and the range if it is in a source, and its
/// message. One line without spaces, in UTF-8, which any reader of JSON reads back as that value.
///
/// # Errors
///
/// `AllocError` if an allocation failed.
pub fn refusal_json(
    alloc: Global,
    rule: u8,
    place: Option<Place<'_>>,
    message: &str,
) -> Result<Vec<u8>, AllocError>
    ensures text { IfOk result (λ t. t.items ≡ json_text (refusal_at rule place.entry message.now)) }
    ensures utf8 { IfOk result (λ t. IsUtf8 t.items) }
    ensures reads_back { IfOk result (λ t. ReadsAs t.items (refusal_at rule place.entry message.now)) }
{
    let mut out = Output::new(alloc);
    write_refusal(&mut out, rule, place, message)?;
    Ok(out.into_bytes())
}
