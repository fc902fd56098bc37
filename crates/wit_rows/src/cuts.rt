//! The view `cuts`: what is written of a source that is cut to each length in bytes, where it is not that
//! of the length before.

use crate::listing::listing;
use crate::sources::map_of;
use anyhow::{Result, bail};
use std::alloc::Global;
use wit_text::SourceMap;

/// The map of a text by itself.
pub fn whole_map(alloc: Global, text: &str) -> Result<SourceMap> {
    match map_of(alloc, text) {
        Ok(map) => Ok(map),
        Err(fault) => bail!("{fault}"),
    }
}

/// What is written of a text by itself.
pub fn written(alloc: Global, text: &str) -> Result<String> {
    listing(alloc, whole_map(alloc, text)?)
}

/// Puts what is written of each beginning of a source after a text.
fn push_cuts(alloc: Global, text: &mut String, source: &str) -> Result<()> {
    let mut last = String::new(alloc);
    for length in 0..=source.len() {
        if let Some(prefix) = source.get(..length) {
            let found = written(alloc, prefix)?;
            if found.as_str() != last.as_str() {
                write!(text, "at {length}\n{}", found.as_str())?;
                last = found;
            }
        }
    }
    Ok(())
}

/// What is written of each beginning of each source.
pub fn cuts_view(alloc: Global, map: &SourceMap) -> Result<String> {
    let mut text = String::new(alloc);
    for source in map.sources() {
        push_cuts(alloc, &mut text, source.contents.as_str())?;
    }
    Ok(text)
}
