//! The view `foreign`: the items of other packages, a package a line, each item with its entry and how
//! stable each path that leads to it says that it is.

use std::alloc::AllocError;
use wit_maps::TextTable;
use wit_model::{AstItem, UnresolvedPackage};
use wit_types::Stability;
use wit_values::{Rare, Release, Row};

/// Puts the version from which on something is deprecated after a text.
fn push_deprecated(text: &mut String, deprecated: &Rare<Release>) -> Result<(), AllocError> {
    match deprecated.get() {
        Some(version) => write!(text, ", not from {version}"),
        None => Ok(()),
    }
}

/// Puts a stability in words after a text.
fn push_stability(text: &mut String, stability: &Stability) -> Result<(), AllocError> {
    match stability {
        Stability::Unknown => text.push_str("unknown"),
        Stability::Stable { since, deprecated } => {
            write!(text, "stable {since}")?;
            push_deprecated(text, deprecated)
        }
        Stability::Unstable {
            feature,
            deprecated,
        } => {
            text.push_str("unstable ")?;
            text.push_str(feature.as_str())?;
            push_deprecated(text, deprecated)
        }
    }
}

/// Puts the entry of an item after a text.
fn push_entry(text: &mut String, item: &AstItem) -> Result<(), AllocError> {
    match item {
        AstItem::Interface(id) => write!(text, "i{}", id.index()),
        AstItem::World(id) => write!(text, "w{}", id.index()),
    }
}

/// Puts the items of a package after a text.
fn push_items(
    text: &mut String,
    items: &TextTable<(AstItem, Row<Stability>)>,
) -> Result<(), AllocError> {
    for place in 0..items.len() {
        if let Some((name, item)) = items.get_index(place) {
            write!(text, " [{name} ")?;
            push_entry(text, &item.0)?;
            let mut prefix = ": ";
            for stability in item.1.as_slice() {
                text.push_str(prefix)?;
                push_stability(text, stability)?;
                prefix = ", ";
            }
            text.push_str("]")?;
        }
    }
    Ok(())
}

/// Puts the items of other packages after a text.
pub fn push_foreign(text: &mut String, package: &UnresolvedPackage) -> Result<(), AllocError> {
    for place in 0..package.foreign_deps.len() {
        if let Some((name, items)) = package.foreign_deps.get_index(place) {
            write!(text, "{name}")?;
            push_items(text, items)?;
            text.push_str("\n")?;
        }
    }
    Ok(())
}
