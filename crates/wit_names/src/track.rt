//! The tracks of versions.
ghost use Rattle.std.specs.Prelude.{◌≡◌, ◌++◌, IfOk, string_bytes};
ghost use Rattle.std.specs.Option.{option_map};
ghost use Rattle.semver.specs.Identifiers.{parts_of, version_text};
ghost use Rattle.wit_names.specs.Track.{suffix_of, suffix_text, text_bytes, track_text, unless_empty};

use semver::Version;
use std::alloc::{AllocError, Global};

fn track(alloc: Global, version: &Version) -> Result<String, AllocError>
    ensures { IfOk result (λ t. string_bytes t ≡ track_text (parts_of version.now)) }
{
    let (major, minor, patch) = (version.major, version.minor, version.patch);
    if !version.pre.is_empty() {
        let pre = version.pre.as_str();
        format!(in alloc; "{major}.{minor}.{patch}-{pre}")
    } else if major != 0 {
        format!(in alloc; "{major}")
    } else if minor != 0 {
        format!(in alloc; "{major}.{minor}")
    } else {
        format!(in alloc; "{major}.{minor}.{patch}")
    }
}

fn suffix_text(alloc: Global, version: &Version) -> Result<String, AllocError>
    ensures { IfOk result (λ s. string_bytes s ≡ suffix_text (parts_of version.now)) }
{
    let (major, minor, patch) = (version.major, version.minor, version.patch);
    let build = version.build.as_str();
    let numbers = if !version.pre.is_empty() || major == 0 && minor == 0 {
        String::new(alloc)
    } else if major != 0 {
        format!(in alloc; ".{minor}.{patch}")?
    } else {
        format!(in alloc; ".{patch}")?
    };
    if version.build.is_empty() {
        Ok(numbers)
    } else {
        format!(in alloc; "{numbers}+{build}")
    }
}

fn unless_empty(text: String) -> Option<String>
    ensures { option_map string_bytes result ≡ unless_empty (string_bytes text) }
{
    if text.is_empty() { None } else { Some(text) }
}

/// The compatibility track of a version, and the rest of its text, None where nothing is left.
///
/// The track of a pre-release is the text before the `+` of its build. That of any other
/// version is `major` if it is not 0, else `0.minor` if that minor is not 0, else `0.0.patch`.
/// The error is a failed allocation.
pub fn split_canonical(
    alloc: Global,
    version: &Version,
) -> Result<(String, Option<String>), AllocError>
    ensures track { IfOk result (λ r. string_bytes r.0 ≡ track_text (parts_of version.now)) }
    ensures suffix { IfOk result (λ r. option_map string_bytes r.1 ≡ suffix_of (parts_of version.now)) }
    ensures whole { IfOk result (λ r. string_bytes r.0 ++ text_bytes r.1 ≡ version_text version.now) }
{
    let track = track(alloc, version)?;
    let suffix = unless_empty(suffix_text(alloc, version)?);
    Ok((track, suffix))
}
