//! The text of a package's name.
ghost use Rattle.std.specs.Prelude.{◌≡◌, IfOk, Some, string_bytes};
ghost use Rattle.wit_package_names.specs.PackageName.{at_version, interface_text, name_text};

use crate::package_name::PackageName;
use std::alloc::{AllocError, Global};
use std::fmt;
use wit_values::Release;

/// A version with `@` in front, or nothing.
#[derive(Clone, Copy)]
struct AtVersion<'a>(&'a Option<Release>);

impl fmt::Display for AtVersion<'_> {
    ghost output = { λ v. Some (at_version v.0.now) };

    fn fmt<W: fmt::Write>(&self, f: &mut fmt::Formatter<W>) -> fmt::Result {
        if let Some(version) = self.0 {
            write!(f, "@{version}")?;
        }
        Ok(())
    }
}

/// `namespace:name`, and where there is a version `@` and its text.
impl fmt::Display for PackageName {
    ghost output = { λ n. Some (name_text n) };

    fn fmt<W: fmt::Write>(&self, f: &mut fmt::Formatter<W>) -> fmt::Result {
        let (namespace, name) = (self.namespace.as_str(), self.name.as_str());
        let version = AtVersion(&self.version);
        write!(f, "{namespace}:{name}{version}")
    }
}

impl PackageName {
    /// The text that Display writes.
    ///
    /// The error is a failed allocation.
    pub fn to_text(&self, alloc: Global) -> Result<String, AllocError>
        ensures { IfOk result (λ t. string_bytes t ≡ name_text self.now) }
    {
        format!(in alloc; "{self}")
    }

    /// The id of an interface of this package: `namespace:name/interface`, and where there is a
    /// version `@` and its text.
    ///
    /// The error is a failed allocation.
    pub fn interface_id(&self, alloc: Global, interface: &str) -> Result<String, AllocError>
        ensures { IfOk result (λ t. string_bytes t ≡ interface_text self.now interface.now) }
    {
        let (namespace, name) = (self.namespace.as_str(), self.name.as_str());
        let version = AtVersion(&self.version);
        format!(in alloc; "{namespace}:{name}/{interface}{version}")
    }
}
