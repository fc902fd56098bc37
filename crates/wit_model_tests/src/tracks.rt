//! The tracks of versions.
use semver::Version;
use std::alloc::Global;
use std::test::Fail;
use wit_model::laws;
use wit_package_names::PackageName;
use wit_values::Release;

/// A version a line, its track version, its track, and what comes after this.
const CASES: &str = "1.2.3|1.0.0|1|.2.3
101.201.301|101.0.0|101|.201.301
0.2.6-rc.1|0.2.6-rc.1|0.2.6-rc.1|
0.10.0+build.1|0.10.0|0.10|.0+build.1
0.10.4|0.10.0|0.10|.4
0.0.1-alpha+build.1|0.0.1-alpha|0.0.1-alpha|+build.1
0.0.0|0.0.0|0.0.0|
0.0.100+build.1|0.0.100|0.0.100|+build.1
1.0.0-beta.1|1.0.0-beta.1|1.0.0-beta.1|";

// Whether a text is this suffix, where an empty one means none.
fn is_suffix(as_stated: &Option<String>, suffix: &str) -> bool {
    match as_stated {
        Some(text) => !suffix.is_empty() && text.as_str() == suffix,
        None => suffix.is_empty(),
    }
}

fn has_track(alloc: Global, text: &str, track: &str, suffix: &str) -> Result<bool, Fail> {
    let version = Version::parse(alloc, text)?;
    laws::track_then_suffix(&version);
    laws::track_of_track(&version);
    laws::tracks_determine(&version, &version);
    let (as_stated, rest_after) = PackageName::version_compat_track_string(alloc, &version)?;
    Ok(as_stated.as_str() == track && is_suffix(&rest_after, suffix))
}

fn has_track_version(alloc: Global, text: &str, track: &str, suffix: &str) -> Result<bool, Fail> {
    let version = Version::parse(alloc, text)?;
    let (as_stated, rest_after) = PackageName::version_compat_track(alloc, &version)?;
    Ok(as_stated == Version::parse(alloc, track)? && is_suffix(&rest_after, suffix))
}

fn has_release_track(alloc: Global, text: &str, track: &str, suffix: &str) -> Result<bool, Fail> {
    let release = Release::of(alloc, &Version::parse(alloc, text)?)?;
    let (as_stated, rest_after) = PackageName::release_compat_track(alloc, &release)?;
    let wanted = Version::parse(alloc, track)?;
    Ok(as_stated.into_version() == wanted && is_suffix(&rest_after, suffix))
}

fn has_release_text(alloc: Global, text: &str, track: &str, suffix: &str) -> Result<bool, Fail> {
    let release = Release::of(alloc, &Version::parse(alloc, text)?)?;
    let (as_stated, rest_after) = PackageName::release_compat_track_string(alloc, &release)?;
    Ok(as_stated.as_str() == track && is_suffix(&rest_after, suffix))
}

// Whether both tracks of a version and of its release are as a case says.
fn is_case(alloc: Global, case: &str) -> Result<bool, Fail> {
    let (text, tracks) = case.split_once('|').unwrap_or((case, ""));
    let (version, as_stated) = tracks.split_once('|').unwrap_or((tracks, ""));
    let (track, suffix) = as_stated.split_once('|').unwrap_or((as_stated, ""));
    let are_texts = has_track(alloc, text, track, suffix)?
        && has_release_text(alloc, text, track, suffix)?;
    Ok(
        are_texts
            && has_track_version(alloc, text, version, suffix)?
            && has_release_track(alloc, text, version, suffix)?,
    )
}

#[test]
fn tracks_of_versions(rt: HostRuntime) -> Result<(), Fail> {
    for case in CASES.lines() {
        assert!(rt; is_case(rt.alloc(), case)?, "{case}");
    }
    Ok(())
}
