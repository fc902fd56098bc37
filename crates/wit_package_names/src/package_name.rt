//! The names of packages.

use wit_values::{Release, Text};

/// The name of a package: `namespace:name`, perhaps with a version.
///
/// Names are compared field by field; no version comes before all versions.
#[derive(Debug, Clone, PartialEq, Eq, PartialOrd, Ord, Hash)]
pub struct PackageName {
    pub namespace: Text,
    pub name: Text,
    pub version: Option<Release>,
}

impl Drop for PackageName {
    fn drop(self) {
        let PackageName {
            namespace: _,
            name: _,
            version: _,
        } = self;
    }
}
