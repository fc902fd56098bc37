//! Versions, which contracts see as their parts.
ghost use Rattle.std.specs.Prelude.{◌≡◌, IfOk, Some, [], nat_eq, refl};
ghost use Rattle.std.proofs.Common.{rules};
ghost use Rattle.std.specs.Cmp.{partial_equiv_from_equiv};
ghost use Rattle.std.specs.Cmp.Lexicographic.{nat_list_eq_equiv, pointwise};
ghost use Rattle.std.specs.Cmp.Rules.{hashing};
ghost use Rattle.std.specs.Hash as fed;
ghost use Rattle.semver.specs.Identifiers.{build_text, parts_of, pre_text};
ghost use Rattle.semver.specs.Order.{build_cmp, pre_cmp};
ghost use Rattle.wit_values.specs.ReleaseParts.{build_of, pre_of};
ghost use Rattle.semver.specs.OrderLaws.{build-anti, build_po, build_total, order_ties, pre-anti, pre_po, pre_total};

use semver::{BuildMetadata, Prerelease, Version};
use std::alloc::{AllocError, Global};
use std::cmp::Ordering;
use std::fmt;
use std::hash::{Hash, Hasher};
use std::marker::Model;

/// A version by SemVer 2.0.0: three numbers, a pre-release and build metadata.
///
/// The order is SemVer's, and among versions that differ in build metadata alone that of `semver`.
#[derive(Debug, Clone, PartialEq, Eq, PartialOrd, Ord, Hash)]
pub struct Release {
    pub major: u64,
    pub minor: u64,
    pub patch: u64,
    /// The text after `-`, without it; empty where there is none.
    pub pre: PreText,
    /// The text after `+`, without it; empty where there is none.
    pub build: BuildText,
}

impl Drop for Release {
    fn drop(self) {
        let Release {
            major: _,
            minor: _,
            patch: _,
            pre: _,
            build: _,
        } = self;
    }
}

impl Release {
    /// A copy of a version of `semver`. Memory is taken for a pre-release and for build metadata alone.
    pub fn of(alloc: Global, version: &Version) -> Result<Release, AllocError>
        ensures { IfOk result (λ r. parts_of version.now ≡ (r.major, r.minor, r.patch, r.pre, r.build)) }
    {
        Ok(Release {
            major: version.major,
            minor: version.minor,
            patch: version.patch,
            pre: PreText::of(alloc, &version.pre)?,
            build: BuildText::of(alloc, &version.build)?,
        })
    }

    /// A version of `semver`, made of what this one holds.
    pub fn into_version(self) -> Version
        ensures { parts_of result ≡ (self.major, self.minor, self.patch, self.pre, self.build) }
    {
        let Release {
            major,
            minor,
            patch,
            pre,
            build,
        } = self;
        Version {
            major,
            minor,
            patch,
            pre: pre.into_part(),
            build: build.into_part(),
        }
    }
}

/// The text of a pre-release, which contracts see as its bytes. Few versions have one, so it is apart.
pub struct PreText {
    /// None where the text is empty.
    part: Option<Box<Prerelease>>,
}

impl Drop for PreText {
    fn drop(self) {
        let PreText { part: _ } = self;
    }
}

impl Model for PreText {
    ghost use Rattle.std.specs.Prelude.{ℕ, List};
    ghost use Rattle.wit_values.specs.ReleaseParts.{pre_of};

    ghost Value = { List ℕ };

    ghost view = { λ p. pre_of p.part };
}

impl PreText {
    ghost use Rattle.semver.specs.Identifiers.{pre_text};

    /// A copy of a pre-release.
    fn of(alloc: Global, part: &Prerelease) -> Result<PreText, AllocError>
        ensures { IfOk result (λ text. text ≡ pre_text part.now) }
    {
        if part.is_empty() {
            return Ok(PreText { part: None });
        }
        Ok(PreText {
            part: Some(Box::new(alloc, part.clone()?)?),
        })
    }

    /// The text.
    pub fn as_str(&self) -> &str
        ensures { result.now ≡ self.now }
    {
        match &self.part {
            Some(part) => part.as_str(),
            None => "",
        }
    }

    /// The pre-release, given back.
    fn into_part(self) -> Prerelease
        ensures { pre_text result ≡ self }
    {
        let PreText { part } = self;
        match part {
            Some(part) => Box::into_inner(part),
            None => Prerelease::empty(),
        }
    }
}

impl Clone for PreText {
    ghost is_clone = { λ a b. b ≡ a };

    fn clone(&self) -> Result<PreText, AllocError> {
        match &self.part {
            Some(part) => Ok(PreText {
                part: Some(part.clone()?),
            }),
            None => Ok(PreText { part: None }),
        }
    }
}

impl fmt::Debug for PreText {
    fn fmt<W: fmt::Write>(&self, f: &mut fmt::Formatter<W>) -> fmt::Result {
        fmt::Debug::fmt(self.as_str(), f)
    }
}

impl PartialEq for PreText {
    ghost eq = { pointwise nat_eq };

    ghost laws = { partial_equiv_from_equiv nat_list_eq_equiv };

    fn eq(&self, other: &PreText) -> bool {
        self.as_str() == other.as_str()
    }
}

impl Eq for PreText {
    ghost laws = { nat_list_eq_equiv };
}

impl Hash for PreText {
    ghost hash_input = { λ p. fed.str p };

    ghost respects_eq = { Prim.search (hashing, rules) };

    fn hash<H: Hasher>(&self, state: &mut H) {
        self.as_str().hash(state);
    }
}

impl PartialOrd for PreText {
    ghost partial_cmp = { λ a b. Some (pre_cmp a b) };

    ghost laws = { pre_po };

    fn partial_cmp(&self, other: &PreText) -> Option<Ordering> {
        Some(self.cmp(other))
    }
}

impl Ord for PreText {
    ghost cmp = { pre_cmp };

    ghost total = { pre_total };

    ghost matches_partial_cmp = { λ a b. refl };

    ghost matches_eq = { λ a b. order_ties pre_cmp pre_total pre-anti a b };

    fn cmp(&self, other: &PreText) -> Ordering {
        let none = Prerelease::empty();
        pre_or(&self.part, &none).cmp(pre_or(&other.part, &none))
    }
}

/// The pre-release, or the one that means none.
fn pre_or<'p>(part: &'p Option<Box<Prerelease>>, none: &'p Prerelease) -> &'p Prerelease
    requires { pre_text none.now ≡ [] }
    ensures { pre_text result.now ≡ pre_of part.now }
{
    match part {
        Some(part) => part,
        None => none,
    }
}

/// The text of build metadata, which contracts see as its bytes. Few versions have one, so it is apart.
pub struct BuildText {
    /// None where the text is empty.
    part: Option<Box<BuildMetadata>>,
}

impl Drop for BuildText {
    fn drop(self) {
        let BuildText { part: _ } = self;
    }
}

impl Model for BuildText {
    ghost use Rattle.std.specs.Prelude.{ℕ, List};
    ghost use Rattle.wit_values.specs.ReleaseParts.{build_of};

    ghost Value = { List ℕ };

    ghost view = { λ p. build_of p.part };
}

impl BuildText {
    ghost use Rattle.semver.specs.Identifiers.{build_text};

    /// A copy of build metadata.
    fn of(alloc: Global, part: &BuildMetadata) -> Result<BuildText, AllocError>
        ensures { IfOk result (λ text. text ≡ build_text part.now) }
    {
        if part.is_empty() {
            return Ok(BuildText { part: None });
        }
        Ok(BuildText {
            part: Some(Box::new(alloc, part.clone()?)?),
        })
    }

    /// The text.
    pub fn as_str(&self) -> &str
        ensures { result.now ≡ self.now }
    {
        match &self.part {
            Some(part) => part.as_str(),
            None => "",
        }
    }

    /// The metadata, given back.
    fn into_part(self) -> BuildMetadata
        ensures { build_text result ≡ self }
    {
        let BuildText { part } = self;
        match part {
            Some(part) => Box::into_inner(part),
            None => BuildMetadata::empty(),
        }
    }
}

impl Clone for BuildText {
    ghost is_clone = { λ a b. b ≡ a };

    fn clone(&self) -> Result<BuildText, AllocError> {
        match &self.part {
            Some(part) => Ok(BuildText {
                part: Some(part.clone()?),
            }),
            None => Ok(BuildText { part: None }),
        }
    }
}

impl fmt::Debug for BuildText {
    fn fmt<W: fmt::Write>(&self, f: &mut fmt::Formatter<W>) -> fmt::Result {
        fmt::Debug::fmt(self.as_str(), f)
    }
}

impl PartialEq for BuildText {
    ghost eq = { pointwise nat_eq };

    ghost laws = { partial_equiv_from_equiv nat_list_eq_equiv };

    fn eq(&self, other: &BuildText) -> bool {
        self.as_str() == other.as_str()
    }
}

impl Eq for BuildText {
    ghost laws = { nat_list_eq_equiv };
}

impl Hash for BuildText {
    ghost hash_input = { λ p. fed.str p };

    ghost respects_eq = { Prim.search (hashing, rules) };

    fn hash<H: Hasher>(&self, state: &mut H) {
        self.as_str().hash(state);
    }
}

impl PartialOrd for BuildText {
    ghost partial_cmp = { λ a b. Some (build_cmp a b) };

    ghost laws = { build_po };

    fn partial_cmp(&self, other: &BuildText) -> Option<Ordering> {
        Some(self.cmp(other))
    }
}

impl Ord for BuildText {
    ghost cmp = { build_cmp };

    ghost total = { build_total };

    ghost matches_partial_cmp = { λ a b. refl };

    ghost matches_eq = { λ a b. order_ties build_cmp build_total build-anti a b };

    fn cmp(&self, other: &BuildText) -> Ordering {
        let none = BuildMetadata::empty();
        build_or(&self.part, &none).cmp(build_or(&other.part, &none))
    }
}

/// The metadata, or the one that means none.
fn build_or<'p>(part: &'p Option<Box<BuildMetadata>>, none: &'p BuildMetadata) -> &'p BuildMetadata
    requires { build_text none.now ≡ [] }
    ensures { build_text result.now ≡ build_of part.now }
{
    match part {
        Some(part) => part,
        None => none,
    }
}
