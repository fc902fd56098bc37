//! The views: each writes something of the sources of a case.

use crate::cuts::cuts_view;
use crate::lines::lines_view;
use crate::listing::{listing, packages_view};
use crate::narrow::narrow_view;
use crate::pushed::{alone_view, pushed_view};
use crate::sources::sources_view;
use crate::statuses::status_view;
use anyhow::Result;
use std::alloc::Global;
use wit_text::SourceMap;
use wit_views::{read_view, tree_view};

/// What the view of this name writes.
pub fn view(alloc: Global, name: &str, map: SourceMap) -> Result<String> {
    match name {
        "listing" | "input" | "large" => listing(alloc, map),
        "sources" => Ok(sources_view(alloc, &map)?),
        "cuts" => cuts_view(alloc, &map),
        "narrow" => narrow_view(alloc, &map),
        "lines" => lines_view(alloc, &map),
        "status" => status_view(alloc, &map),
        "read" => Ok(read_view(alloc, &map)?),
        "tree" => Ok(tree_view(alloc, &map)?),
        "pushed" => pushed_view(alloc, &map),
        "alone" => alone_view(alloc, &map),
        _ => packages_view(alloc, name, &map),
    }
}
