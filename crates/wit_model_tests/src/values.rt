//! Releases: what is put into them comes out again, and their order.

use semver::Version;
use std::alloc::Global;
use std::cmp::Ordering;
use std::test::Fail;
use wit_values::{Release, laws};

fn release(alloc: Global, text: &str) -> Result<Release, Fail> {
    let version = Version::parse(alloc, text)?;
    Ok(Release::of(alloc, &version)?)
}

fn is_shown(alloc: Global, release: &Release, wanted: &str) -> Result<bool, Fail> {
    let shown = format!(in alloc; "{release}")?;
    Ok(shown.as_str() == wanted && release.clone()? == *release)
}

// Whether the version of each text is less than the next, and the same as itself.
fn are_rising(alloc: Global, texts: &[&str]) -> Result<bool, Fail> {
    let mut releases = Vec::new(alloc);
    for text in texts {
        releases.push(release(alloc, text)?)?;
    }
    for i in 1..releases.len() {
        let (less, greater) = (&releases[i - 1], &releases[i]);
        if laws::compare_releases(less, greater) != Ordering::Less || *greater <= *less {
            return Ok(false);
        }
        if !laws::is_same_release(less, less) || laws::is_same_release(less, greater) {
            return Ok(false);
        }
    }
    Ok(true)
}

#[test]
fn releases(rt: HostRuntime) -> Result<(), Fail> {
    let release = release(rt.alloc(), "1.2.3-rc.1+b")?;
    assert!(rt; release.pre.as_str() == "rc.1" && release.build.as_str() == "b");
    assert!(rt; is_shown(rt.alloc(), &release, "1.2.3-rc.1+b")?);
    assert!(rt; release.into_version() == Version::parse(rt.alloc(), "1.2.3-rc.1+b")?);
    Ok(())
}

#[test]
fn order_of_releases(rt: HostRuntime) -> Result<(), Fail> {
    let texts = ["1.2.3-rc.1+b", "1.2.3", "1.2.3+b", "1.3.0"];
    assert!(rt; are_rising(rt.alloc(), texts.as_slice())?);
    Ok(())
}
