//! The JSON of what sources come to, with a status.
ghost use Rattle.std.specs.Prelude.{◌≡◌, ℕ, List, [], map};
ghost use Rattle.wit_bundle.specs.Apart.{AreFound, ArePieces, pairs_of};
ghost use Rattle.wit_bundle.specs.Bundle.{sources_of};
ghost use Rattle.wit_outcome.specs.Outcome.{IsOutcome};
ghost use Rattle.wit_ffi.specs.Answer.{AnswersEach, IsAnswer, IsPartsAnswer, IsTextAnswer, outcome_status};

use crate::status::{MADE, NO_MEMORY, NO_TEXT, REFUSED};
use std::alloc::Global;
use std::str;
use wit_bundle::apart::{pieces_of, sources_of_pieces};
use wit_outcome::{Outcome, outcome_json, resolve, resolve_text};

/// A status, and with `MADE` and `REFUSED` a JSON text.
#[derive(Drop)]
pub(crate) struct Answer {
    pub(crate) status: u8,
    pub(crate) json: Vec<u8>,
}

/// A status without a text.
fn bare(alloc: Global, status: u8) -> Answer
    ensures status { result.status ≡ status }
    ensures json { result.json.items ≡ [] }
{
    Answer {
        status,
        json: Vec::new(alloc),
    }
}

/// The status of an outcome.
fn status_of(outcome: &Outcome) -> u8
    ensures { result ≡ outcome_status outcome.now }
{
    match outcome {
        Outcome::Group(_) => MADE,
        Outcome::Refusal(_) => REFUSED,
    }
}

/// The answer of an outcome.
fn answer_outcome(alloc: Global, outcome: &Outcome) -> Answer
    ensures { (parts : List (List ℕ × List ℕ)) → IsOutcome parts outcome.now → IsAnswer parts result.status result.json.items }
{
    match outcome_json(alloc, outcome) {
        Ok(json) => Answer {
            status: status_of(outcome),
            json,
        },
        Err(_) => bare(alloc, NO_MEMORY),
    }
}

/// The answer to a text.
fn answer_text(alloc: Global, text: &str) -> Answer
    ensures { IsAnswer (sources_of text.now) result.status result.json.items }
{
    match resolve_text(alloc, text) {
        Ok(outcome) => answer_outcome(alloc, &outcome),
        Err(_) => bare(alloc, NO_MEMORY),
    }
}

/// The answer to bytes, which may be a text.
pub(crate) fn answer_bytes(alloc: Global, bytes: &[u8]) -> Answer
    ensures { IsTextAnswer bytes.now result.status result.json.items }
{
    match str::from_utf8(bytes) {
        Ok(text) => answer_text(alloc, text),
        Err(_) => bare(alloc, NO_TEXT),
    }
}

/// The answer to the sources of pieces: of each its path, and then its text.
fn answer_pieces(alloc: Global, pieces: &[&str]) -> Answer
    ensures { IsAnswer (pairs_of (map (λ p. p.now) pieces.now)) result.status result.json.items }
{
    match resolve(alloc, sources_of_pieces(alloc, pieces)) {
        Ok(outcome) => answer_outcome(alloc, &outcome),
        Err(_) => bare(alloc, NO_MEMORY),
    }
}

/// The answer to pieces that bytes are.
fn answer_even(alloc: Global, pieces: &[&str]) -> Answer
    ensures { AnswersEach (λ bytes lens. ArePieces bytes lens (map (λ p. p.now) pieces.now)) result.status result.json.items }
{
    if pieces.len() % 2 == 0 {
        answer_pieces(alloc, pieces)
    } else {
        bare(alloc, NO_TEXT)
    }
}

/// The answer to the pieces, if the bytes can be split so.
fn answer_found(alloc: Global, found: Option<Vec<&str>>) -> Answer
    ensures { AnswersEach (AreFound found.entry (λ pieces. map (λ p. p.now) pieces.items)) result.status result.json.items }
{
    match found {
        Some(pieces) => answer_even(alloc, pieces.as_slice()),
        None => bare(alloc, NO_TEXT),
    }
}

/// The answer to paths and texts, one after the other, with the length of each.
pub(crate) fn answer_parts(alloc: Global, bytes: &[u8], lens: &[usize]) -> Answer
    ensures { IsPartsAnswer bytes.now lens.now result.status result.json.items }
{
    match pieces_of(alloc, bytes, lens) {
        Ok(found) => answer_found(alloc, found),
        Err(_) => bare(alloc, NO_MEMORY),
    }
}
