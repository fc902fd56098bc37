//! Since when an item is there, and how long.
ghost use Rattle.std.specs.Prelude.{◌≡◌};
ghost use Rattle.wit_types.specs.Stabilities.{is_stable, is_unknown};

use wit_values::{Rare, Release, Text};

/// How stable an item is, by its attributes; the default is `Unknown`.
///
/// The variants are ordered as they are here, and then by their fields.
#[derive(Debug, Clone, PartialEq, Eq, PartialOrd, Ord, Default)]
pub enum Stability {
    /// There is no attribute.
    #[default]
    Unknown,
    /// There after a feature, and from a version on deprecated.
    Unstable {
        feature: Text,
        deprecated: Rare<Release>,
    },
    /// There since a version, and from a version on deprecated.
    Stable {
        since: Release,
        deprecated: Rare<Release>,
    },
}

impl Drop for Stability {
    fn drop(self) {
        match self {
            Stability::Unknown => {}
            Stability::Unstable {
                feature: _,
                deprecated: _,
            } => {}
            Stability::Stable {
                since: _,
                deprecated: _,
            } => {}
        }
    }
}

impl Stability {
    /// Whether there is no attribute.
    pub fn is_unknown(&self) -> bool
        ensures { result ≡ is_unknown self.now }
    {
        matches!(self, Stability::Unknown)
    }

    /// Whether the item is there since a version.
    pub fn is_stable(&self) -> bool
        ensures { result ≡ is_stable self.now }
    {
        matches!(self, Stability::Stable { .. })
    }
}
