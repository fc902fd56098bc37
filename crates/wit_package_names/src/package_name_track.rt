//! The compatibility tracks of versions.
ghost use Rattle.std.specs.Prelude.{◌≡◌, ◌++◌, IfOk, string_bytes};
ghost use Rattle.std.specs.Option.{option_map};
ghost use Rattle.semver.specs.Identifiers.{parts_of, version_text};
ghost use Rattle.wit_names.specs.Track.{release_numbers, suffix_of, text_bytes, track_parts, track_text};
ghost use Rattle.wit_values.specs.ReleaseText.{release_parts};

use crate::package_name::PackageName;
use semver::{BuildMetadata, Version};
use std::alloc::{AllocError, Global};
use wit_names::split_canonical;
use wit_values::Release;

/// The numbers of a version without a pre-release, 0 where they come after the track.
fn release_numbers(version: &Version) -> (u64, u64, u64)
    ensures { result ≡ release_numbers (parts_of version.now) }
{
    let (major, minor, patch) = (version.major, version.minor, version.patch);
    if major != 0 {
        (major, 0, 0)
    } else if minor != 0 {
        (major, minor, 0)
    } else {
        (major, minor, patch)
    }
}

/// The version without its build, and without a pre-release with 0 for the numbers after its
/// track.
fn track_version(version: &Version) -> Result<Version, AllocError>
    ensures { IfOk result (λ v. parts_of v ≡ track_parts (parts_of version.now)) }
{
    let (major, minor, patch) = if version.pre.is_empty() {
        release_numbers(version)
    } else {
        (version.major, version.minor, version.patch)
    };
    Ok(Version {
        major,
        minor,
        patch,
        pre: version.pre.clone()?,
        build: BuildMetadata::empty(),
    })
}

impl PackageName {
    /// The version that means the track of a version, and the rest of the version's text,
    /// None where nothing is left.
    ///
    /// The track version has no build. It keeps a pre-release with all three numbers; without one,
    /// the numbers after the first that is not 0 are 0. The error is a failed allocation.
    pub fn version_compat_track(
        alloc: Global,
        version: &Version,
    ) -> Result<(Version, Option<String>), AllocError>
        ensures track { IfOk result (λ r. parts_of r.0 ≡ track_parts (parts_of version.now)) }
        ensures suffix { IfOk result (λ r. option_map string_bytes r.1 ≡ suffix_of (parts_of version.now)) }
    {
        let (_, suffix) = Self::version_compat_track_string(alloc, version)?;
        Ok((track_version(version)?, suffix))
    }

    /// The track of a version as names of imports and exports write it, and the rest of the
    /// version's text, None where nothing is left.
    ///
    /// The error is a failed allocation.
    pub fn version_compat_track_string(
        alloc: Global,
        version: &Version,
    ) -> Result<(String, Option<String>), AllocError>
        ensures track { IfOk result (λ r. string_bytes r.0 ≡ track_text (parts_of version.now)) }
        ensures suffix { IfOk result (λ r. option_map string_bytes r.1 ≡ suffix_of (parts_of version.now)) }
        ensures whole { IfOk result (λ r. string_bytes r.0 ++ text_bytes r.1 ≡ version_text version.now) }
    {
        split_canonical(alloc, version)
    }
    /// The same as [`PackageName::version_compat_track`], of a release as a package's name holds it.
    pub fn release_compat_track(
        alloc: Global,
        release: &Release,
    ) -> Result<(Release, Option<String>), AllocError>
        ensures track { IfOk result (λ r. release_parts r.0 ≡ track_parts (release_parts release.now)) }
        ensures suffix { IfOk result (λ r. option_map string_bytes r.1 ≡ suffix_of (release_parts release.now)) }
    {
        let version = release.clone()?.into_version();
        let (track, suffix) = Self::version_compat_track(alloc, &version)?;
        Ok((Release::of(alloc, &track)?, suffix))
    }

    /// The same as [`PackageName::version_compat_track_string`], of a release as a package's name holds it.
    pub fn release_compat_track_string(
        alloc: Global,
        release: &Release,
    ) -> Result<(String, Option<String>), AllocError>
        ensures track { IfOk result (λ r. string_bytes r.0 ≡ track_text (release_parts release.now)) }
        ensures suffix { IfOk result (λ r. option_map string_bytes r.1 ≡ suffix_of (release_parts release.now)) }
    {
        let version = release.clone()?.into_version();
        Self::version_compat_track_string(alloc, &version)
    }
}
