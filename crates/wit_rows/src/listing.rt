//! The views `listing` and `input`, of sources as they are run, and those of packages: the listing of
//! the packages, or another view of them, or the line of their refusal.

use crate::sources::resolved;
use anyhow::Result;
use std::alloc::Global;
use std::{io, str};
use wit_text::SourceMap;
use wit_tool::run;
use wit_views::{Found, write_packages};

/// What was written, once it is stated whether that is a line of a refusal.
fn as_stated(alloc: Global, listed: bool, out: &[u8]) -> Result<String> {
    let mut text = String::from_str(alloc, str::from_utf8(out)?)?;
    if listed == text.as_str().starts_with("error ") {
        text.push_str("told to be what it is not\n")?;
    }
    Ok(text)
}

/// The listing of the packages of a map, which is run, or the line of their refusal.
pub fn listing(alloc: Global, map: SourceMap) -> Result<String> {
    let mut out: Vec<u8> = Vec::new(alloc);
    let listed = run(alloc, map, &mut out).map_err(io::Error::from)?;
    as_stated(alloc, listed.is_some(), out.as_slice())
}

/// What the view of this name writes of what sources come to, or the line of their refusal.
pub fn shown(alloc: Global, name: &str, map: &SourceMap, found: Found) -> Result<String> {
    let mut out: Vec<u8> = Vec::new(alloc);
    let listed = write_packages(alloc, name, map, found, &mut out).map_err(io::Error::from)?;
    as_stated(alloc, listed, out.as_slice())
}

/// What the view of this name writes of the packages of a map, of which features are made external ids, or
/// the line of their refusal.
pub fn packages_view(alloc: Global, name: &str, map: &SourceMap) -> Result<String> {
    shown(alloc, name, map, resolved(alloc, map))
}
