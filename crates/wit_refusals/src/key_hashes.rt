//! Numbers made of texts, which say at once that many texts differ.
ghost use Rattle.std.specs.Prelude.{◌≡◌, IfOk, IsTrue, map};
ghost use Rattle.std.specs.List.Sorted.{IsStrictlyIncreasing};
ghost use Rattle.wit_refusals.specs.KeyHashes.{key_hash_of};
ghost use Rattle.wit_syntax.specs.Repeats.{AllDiffer};

use std::alloc::{AllocError, Global};
use std::hash::{FoldHasher, Hasher};

/// A number made of the bytes of a text, which two texts seldom share.
fn key_hash(text: &str) -> u64
    ensures { result ≡ key_hash_of text.now }
{
    let mut hasher = FoldHasher::default();
    hasher.write(text.as_bytes());
    hasher.finish()
}

/// The hashes of texts, in the order of the texts.
fn key_hashes_of(alloc: Global, texts: &[&str]) -> Result<Vec<u64>, AllocError>
    ensures { IfOk result (λ key_hashes. key_hashes.items ≡ map (λ t. key_hash_of t.now) texts.now) }
{
    let mut key_hashes = Vec::with_capacity(alloc, texts.len())?;
    for text in texts {
        key_hashes.push(key_hash(text))?;
    }
    Ok(key_hashes)
}

/// Whether each number is greater than the one before it.
fn rise(numbers: &[u64]) -> bool
    ensures { IsTrue result → IsStrictlyIncreasing numbers.now }
{
    for place in 1..numbers.len() {
        if numbers[place] <= numbers[place - 1] {
            return false;
        }
    }
    true
}

/// Whether each text has a hash of its own, and so no two are the same.
pub(crate) fn have_own_key_hashes(alloc: Global, texts: &[&str]) -> Result<bool, AllocError>
    ensures { IfOk result (λ own. IsTrue own → AllDiffer (map (λ t. t.now) texts.now)) }
{
    let mut key_hashes = key_hashes_of(alloc, texts)?;
    key_hashes.sort_unstable();
    Ok(rise(&key_hashes))
}
