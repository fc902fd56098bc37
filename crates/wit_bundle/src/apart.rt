//! Sources that come apart: paths and texts one after the other, with the length of each.
ghost use Rattle.std.specs.Prelude.{◌≤◌, IfErr, IfOk, OnOk, map};
ghost use Rattle.wit_lex.specs.Sources.{IsTooLarge};
ghost use Rattle.wit_bundle.specs.Apart.{AreFound, pairs_of};
ghost use Rattle.wit_bundle.specs.Laid.{AreLaid, room};

use std::alloc::{AllocError, Global};
use std::str;
use wit_lex::SourceMap;
use wit_type_tree::ParseResult;

/// The texts of these lengths that bytes are, one after the other; none if the bytes are more or fewer, or
/// one of them is not UTF-8.
///
/// # Errors
///
/// `AllocError` if an allocation failed.
pub fn pieces_of<'a>(
    alloc: Global,
    bytes: &'a [u8],
    lens: &[usize],
) -> Result<Option<Vec<&'a str>>, AllocError>
    ensures { IfOk result (λ found. AreFound found (λ pieces. map (λ p. p.now) pieces.items) bytes.now lens.now) }
{
    let mut pieces = Vec::new(alloc);
    let mut rest = bytes;
    for len in lens {
        if rest.len() < *len {
            return Ok(None);
        }
        let (piece, rest_after) = rest.split_at(*len);
        match str::from_utf8(piece) {
            Ok(text) => pieces.push(text)?,
            Err(_) => return Ok(None),
        }
        rest = rest_after;
    }
    if rest.len() == 0 {
        Ok(Some(pieces))
    } else {
        Ok(None)
    }
}

/// The sources of pieces: of each its path and then its text. A last piece without another is left out.
///
/// # Errors
///
/// - 52: the lengths of all texts, and one more for each, are more than 4,294,967,295 together.
/// - 45: an allocation failed.
pub fn sources_of_pieces(alloc: Global, pieces: &[&str]) -> ParseResult<SourceMap>
    ensures laid { IfOk result (λ sources. AreLaid (pairs_of (map (λ p. p.now) pieces.now)) sources.sources.items) }
    ensures fits { OnOk result (room (pairs_of (map (λ p. p.now) pieces.now)) ≤ 4294967295) }
    ensures too_large { IfErr result (λ e. IsTooLarge (room (pairs_of (map (λ p. p.now) pieces.now))) e) }
{
    let mut map = SourceMap::new(alloc);
    let mut rest = pieces;
    while rest.len() >= 2 {
        map.push(alloc, rest[0], rest[1])?;
        rest = &rest[2..];
    }
    Ok(map)
}
