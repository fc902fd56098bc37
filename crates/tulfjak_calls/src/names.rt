//! Names of packages, and tracks of versions.

use crate::answers::push_answer;
use semver::Version;
use std::alloc::{AllocError, Global};
use tulfjak::names::split_canonical;
use tulfjak::package::{PackageName, Release};

/// Adds the track of a release.
fn push_track(alloc: Global, text: &mut String, release: &Release) -> Result<(), AllocError> {
    let track = PackageName::release_compat_track(alloc, release)?;
    push_answer(text, "release_compat_track", &track)?;
    let is_same = release.clone()? == *release;
    push_answer(text, "Release::clone", &is_same)
}

/// Adds the track of a release as a text, and of the version that it is.
fn push_track_text(alloc: Global, text: &mut String, release: &Release) -> Result<(), AllocError> {
    let track = PackageName::release_compat_track_string(alloc, release)?;
    push_answer(text, "release_compat_track_string", &track)?;
    push_version(alloc, text, &release.clone()?.into_version())
}

/// Adds the track of a version.
fn push_version(alloc: Global, text: &mut String, version: &Version) -> Result<(), AllocError> {
    let track = PackageName::version_compat_track(alloc, version)?;
    push_answer(text, "version_compat_track", &track)?;
    push_answer(text, "Release::of", &Release::of(alloc, version)?)?;
    push_version_text(alloc, text, version)
}

/// Adds the track of a version as a text.
fn push_version_text(
    alloc: Global,
    text: &mut String,
    version: &Version,
) -> Result<(), AllocError> {
    let track = PackageName::version_compat_track_string(alloc, version)?;
    push_answer(text, "version_compat_track_string", &track)?;
    push_answer(text, "split_canonical", &split_canonical(alloc, version)?)
}

/// Adds what calls on the name of a package return.
pub fn push_name(alloc: Global, text: &mut String, name: &PackageName) -> Result<(), AllocError> {
    push_answer(text, "PackageName::to_text", &name.to_text(alloc)?)?;
    let id = name.interface_id(alloc, "c")?;
    push_answer(
        text,
        "PackageName::interface_id",
        &(id, name.clone()? == *name),
    )?;
    if let Some(release) = &name.version {
        push_track(alloc, text, release)?;
        push_track_text(alloc, text, release)?;
    }
    Ok(())
}
