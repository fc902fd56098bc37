//! Folded names.
ghost use Rattle.std.specs.Prelude.{◌≡◌, IfOk, IfSome, IsTrue, Some, nat_eq, refl, string_bytes};
ghost use Rattle.std.proofs.Common.{rules};
ghost use Rattle.std.specs.Cmp.{partial_equiv_from_equiv, partial_order_from_own_ties};
ghost use Rattle.std.specs.Cmp.Lexicographic.{nat_list_cmp_total, nat_list_eq_equiv, pointwise, slice_cmp};
ghost use Rattle.std.specs.Cmp.Rules.{comparing, hashing};
ghost use Rattle.std.specs.Ordering.{as_partial_cmp, nat_cmp};
ghost use Rattle.std.specs.Hash as fed;
ghost use Rattle.wit_names.specs.Folded.{folded_key, lower_case, single, single_if_bare, without_kind};
ghost use Rattle.wit_names.specs.Mangled.{is_mangled};

use crate::prefix::rest_after;
use std::alloc::{AllocError, Global};
use std::cmp::Ordering;
use std::hash::{Hash, Hasher};
use std::marker::Model;

fn without_kind(name: &str) -> &str
    ensures { result.now ≡ without_kind name.now }
{
    match rest_after(name, "[method]") {
        Some(rest) => rest,
        None => match rest_after(name, "[static]") {
            Some(rest) => rest,
            None => name,
        },
    }
}

/// What comes after `[method]` or `[static]`, where a name has one of them in front.
fn after_kind(name: &str) -> Option<&str>
    ensures { IfSome result (λ rest. without_kind (lower_case name.now) ≡ lower_case rest.now) }
{
    match rest_after(name, "[method]") {
        Some(rest) => Some(rest),
        None => rest_after(name, "[static]"),
    }
}

fn single(text: &str) -> &str
    ensures { result.now ≡ single text.now }
{
    match text.split_once('.') {
        Some((owner, member)) => if owner == member { owner } else { text },
        None => text,
    }
}

fn single_if_bare(text: &str) -> &str
    ensures { result.now ≡ single_if_bare text.now }
{
    if rest_after(text, "[").is_some() {
        text
    } else {
        single(text)
    }
}

/// A mangled name by its key, which says it apart from the other names beside it.
///
/// The key is the name in ASCII lower case without `[method]` or `[static]` in front;
/// `[constructor]`, `[get]` and `[set]` stay. What is then `l.l` with no accessor in front is `l`.
/// Two folded names are equal, and are fed to a hasher alike, exactly if their keys are equal.
#[derive(Debug)]
pub struct Folded {
    key: String,
}

impl Drop for Folded {
    fn drop(self) {
        let Folded { key: _ } = self;
    }
}

impl Model for Folded {
    ghost use Rattle.std.specs.Prelude.{ℕ, List, string_bytes};

    ghost Value = { List ℕ };

    ghost view = { λ f. string_bytes f.key };
}

/// The folded name of a name in lower case that has neither `[method]` nor `[static]` in front.
fn bare(alloc: Global, lower: String) -> Result<Folded, AllocError>
    ensures { IfOk result (λ f. f ≡ single_if_bare (string_bytes lower)) }
{
    let key = single_if_bare(lower.as_str());
    if key == lower.as_str() {
        return Ok(Folded { key: lower });
    }
    Ok(Folded {
        key: String::from_str(alloc, key)?,
    })
}

impl Folded {
    /// The folded name of a mangled name.
    ///
    /// The error is a failed allocation.
    pub fn new(alloc: Global, name: &str) -> Result<Folded, AllocError>
        requires { IsTrue (is_mangled name.now) }
        ensures { IfOk result (λ f. f ≡ folded_key name.now) }
    {
        if let Some(rest) = after_kind(name) {
            return bare(alloc, rest.to_ascii_lowercase(alloc)?);
        }
        let lower = name.to_ascii_lowercase(alloc)?;
        let key = single_if_bare(without_kind(lower.as_str()));
        if key == lower.as_str() {
            return Ok(Folded { key: lower });
        }
        Ok(Folded {
            key: String::from_str(alloc, key)?,
        })
    }
}

impl Folded {
    /// The key.
    pub fn as_str(&self) -> &str
        ensures { result.now ≡ self.now }
    {
        self.key.as_str()
    }
}

impl PartialEq for Folded {
    ghost eq = { pointwise nat_eq };

    ghost laws = { partial_equiv_from_equiv nat_list_eq_equiv };

    fn eq(&self, other: &Folded) -> bool {
        self.key == other.key
    }
}

impl Eq for Folded {
    ghost laws = { nat_list_eq_equiv };
}

impl Hash for Folded {
    ghost hash_input = { λ f. fed.str f };

    ghost respects_eq = { Prim.search (hashing, rules) };

    fn hash<H: Hasher>(&self, state: &mut H) {
        self.key.as_str().hash(state);
    }
}

impl Ord for Folded {
    ghost cmp = { slice_cmp nat_cmp };

    ghost total = { nat_list_cmp_total };

    ghost matches_partial_cmp = { λ a b. refl };

    ghost matches_eq = { Prim.search (comparing, rules) };

    fn cmp(&self, other: &Folded) -> Ordering {
        self.key.as_str().cmp(other.key.as_str())
    }
}

impl PartialOrd for Folded {
    ghost partial_cmp = { as_partial_cmp (slice_cmp nat_cmp) };

    ghost laws = { partial_order_from_own_ties (Prim.search (comparing, rules)) (Prim.search (comparing, rules)) };

    fn partial_cmp(&self, other: &Folded) -> Option<Ordering> {
        Some(self.cmp(other))
    }
}

impl Clone for Folded {
    ghost is_clone = { λ f g. g ≡ f };

    fn clone(&self) -> Result<Folded, AllocError> {
        Ok(Folded {
            key: self.key.clone()?,
        })
    }
}
