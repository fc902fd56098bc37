//! Texts that are twice in a list.
ghost use Rattle.std.specs.Prelude.{◌≡◌, ◌<◌, ℕ, List, Some, IfOk, IfSome, IfNone, OnOk, length, map, take};
ghost use Rattle.std.specs.Char.{is_ascii_uppercase};
ghost use Rattle.std.specs.List.{list_any};
ghost use Rattle.std.specs.Map.{update};
ghost use Rattle.std.specs.Str.{bytes_eq};
ghost use Rattle.wit_refusals.specs.Lent.{place_of};
ghost use Rattle.wit_names.specs.Folded.{lower_case};
ghost use Rattle.wit_syntax.specs.Repeats.{IsRepeatAt, AllDiffer};

use crate::key_hashes::have_own_key_hashes;
use std::alloc::{AllocError, Global};
use std::collections::BTreeMap;
use wit_values::Text;

/// As many texts are compared in pairs; for more their hashes cost less.
const FEW: usize = 8;

/// Notes that a text is at a place, and gives the earlier place where it is already.
fn note<'t>(
    seen: &mut BTreeMap<&'t str, usize>,
    text: &'t str,
    place: usize,
) -> Result<Option<usize>, AllocError>
    ensures found { IfOk result (λ earlier. earlier ≡ place_of seen.old text.now) }
    ensures noted { OnOk result ((t : List ℕ) → place_of seen.new t ≡ update bytes_eq (place_of seen.old) text.now (Some place) t) }
{
    match seen.insert(text, place) {
        Ok(earlier) => Ok(earlier),
        Err(_) => Err(AllocError),
    }
}

/// [`first_repeat`] by a map from the texts to their places, in which no texts cost more than others.
fn first_repeat_by_map(alloc: Global, texts: &[&str]) -> Result<Option<(usize, usize)>, AllocError>
    ensures some { IfOk result (λ found. IfSome found (λ p. IsRepeatAt (map (λ t. t.now) texts.now) p.0 p.1)) }
    ensures first { IfOk result (λ found. IfSome found (λ p. AllDiffer (take p.1 (map (λ t. t.now) texts.now)))) }
    ensures none { IfOk result (λ found. IfNone found (AllDiffer (map (λ t. t.now) texts.now))) }
{
    let mut seen = BTreeMap::new(alloc);
    for place in 0..texts.len() {
        if let Some(earlier) = note(&mut seen, texts[place], place)? {
            return Ok(Some((earlier, place)));
        }
    }
    Ok(None)
}

/// An earlier place where the text of a place is too.
fn earlier_place(texts: &[&str], place: usize) -> Option<usize>
    requires { place < length texts.now }
    ensures some { IfSome result (λ earlier. IsRepeatAt (map (λ t. t.now) texts.now) earlier place) }
    ensures none { IfNone result ((earlier : ℕ) → IsRepeatAt (map (λ t. t.now) texts.now) earlier place → ⊥) }
{
    let text = texts[place];
    for earlier in 0..place {
        if texts[earlier] == text {
            return Some(earlier);
        }
    }
    None
}

/// [`first_repeat`] by comparing each text with those before it.
fn first_repeat_by_pairs(texts: &[&str]) -> Option<(usize, usize)>
    ensures some { IfSome result (λ p. IsRepeatAt (map (λ t. t.now) texts.now) p.0 p.1) }
    ensures first { IfSome result (λ p. AllDiffer (take p.1 (map (λ t. t.now) texts.now))) }
    ensures none { IfNone result (AllDiffer (map (λ t. t.now) texts.now)) }
{
    for place in 0..texts.len() {
        if let Some(earlier) = earlier_place(texts, place) {
            return Some((earlier, place));
        }
    }
    None
}

/// The first place of a text that is at an earlier place too, after that earlier place.
///
/// The error is a failed allocation.
pub fn first_repeat(alloc: Global, texts: &[&str]) -> Result<Option<(usize, usize)>, AllocError>
    ensures some { IfOk result (λ found. IfSome found (λ p. IsRepeatAt (map (λ t. t.now) texts.now) p.0 p.1)) }
    ensures first { IfOk result (λ found. IfSome found (λ p. AllDiffer (take p.1 (map (λ t. t.now) texts.now)))) }
    ensures none { IfOk result (λ found. IfNone found (AllDiffer (map (λ t. t.now) texts.now))) }
{
    if texts.len() <= FEW {
        return Ok(first_repeat_by_pairs(texts));
    }
    if have_own_key_hashes(alloc, texts)? {
        return Ok(None);
    }
    first_repeat_by_map(alloc, texts)
}

/// Whether a letter of the text is upper case.
pub fn has_upper_case(text: &str) -> bool
    ensures { result ≡ list_any is_ascii_uppercase text.now }
{
    text.as_bytes().iter().any(|b| b.is_ascii_uppercase())
}

/// Whether a letter of some text is upper case.
fn have_upper_case(texts: &[&str]) -> bool
    ensures { result ≡ list_any (λ t. list_any is_ascii_uppercase t.now) texts.now }
{
    texts.iter().any(|text| has_upper_case(text))
}

/// The texts in lower case.
fn in_lower_case(alloc: Global, texts: &[&str]) -> Result<Vec<Text>, AllocError>
    ensures { IfOk result (λ lower. lower.items ≡ map (λ t. lower_case t.now) texts.now) }
{
    let mut lower = Vec::with_capacity(alloc, texts.len())?;
    for text in texts {
        lower.push(Text::from(text.to_ascii_lowercase(alloc)?))?;
    }
    Ok(lower)
}

/// The texts, lent.
fn lent<'t>(alloc: Global, texts: &'t [Text]) -> Result<Vec<&'t str>, AllocError>
    ensures { IfOk result (λ lent. map (λ t. t.now) lent.items ≡ texts.now) }
{
    let mut lent = Vec::with_capacity(alloc, texts.len())?;
    for text in texts {
        lent.push(text.as_str())?;
    }
    Ok(lent)
}

/// The first place of a text that is at an earlier place too once case is folded, after that
/// earlier place.
///
/// Texts are copied only where one has a letter in upper case. The error is a failed allocation.
pub fn first_folded_repeat(
    alloc: Global,
    texts: &[&str],
) -> Result<Option<(usize, usize)>, AllocError>
    ensures some { IfOk result (λ found. IfSome found (λ p. IsRepeatAt (map (λ t. lower_case t.now) texts.now) p.0 p.1)) }
    ensures first { IfOk result (λ found. IfSome found (λ p. AllDiffer (take p.1 (map (λ t. lower_case t.now) texts.now)))) }
    ensures none { IfOk result (λ found. IfNone found (AllDiffer (map (λ t. lower_case t.now) texts.now))) }
{
    if have_upper_case(texts) {
        let lower = in_lower_case(alloc, texts)?;
        let lent = lent(alloc, &lower)?;
        first_repeat(alloc, &lent)
    } else {
        first_repeat(alloc, texts)
    }
}
