//! The names of packages.
ghost use Rattle.std.specs.Prelude.{◌≡◌, IfOk};
ghost use Rattle.std.specs.Option.{option_copied, option_map};
ghost use Rattle.semver.specs.Identifiers.{parts_of};
ghost use Rattle.wit_values.specs.ReleaseText.{release_parts};
ghost use Rattle.wit_syntax.specs.Address.{package_of, release_of as the_release};

use semver::Version;
use std::alloc::{AllocError, Global};
use wit_package_names::PackageName;
use wit_tree::tree;
use wit_values::{Release, Text};

/// A version that is written or absent, as a package keeps it.
pub fn release_of(alloc: Global, version: Option<&Version>) -> Result<Option<Release>, AllocError>
    ensures parts { IfOk result (λ release. option_map release_parts release ≡ option_map parts_of (option_copied version.entry)) }
    ensures release { IfOk result (λ release. release ≡ option_map the_release (option_copied version.entry)) }
{
    match version {
        Some(version) => Ok(Some(Release::of(alloc, version)?)),
        None => Ok(None),
    }
}

/// The name of a package, as a header or a path gives it.
///
/// The error is a failed allocation.
pub fn package_name(
    alloc: Global,
    written: &tree::PackageName<'_>,
) -> Result<PackageName, AllocError>
    ensures namespace { IfOk result (λ name. name.namespace ≡ written.now.namespace.name.now) }
    ensures name { IfOk result (λ name. name.name ≡ written.now.name.name.now) }
    ensures version { IfOk result (λ name. option_map release_parts name.version ≡ option_map parts_of written.now.version) }
    ensures whole { IfOk result (λ name. name ≡ package_of written.now) }
{
    Ok(PackageName {
        namespace: Text::from_str(alloc, written.namespace.name)?,
        name: Text::from_str(alloc, written.name.name)?,
        version: release_of(alloc, written.version.as_ref())?,
    })
}
