//! The names of packages in a listing.
ghost use Rattle.std.specs.Prelude.{◌≡◌, OnOk, string_bytes};
ghost use Rattle.wit_package_names.specs.PackageName.{at_version, name_text};
ghost use Rattle.wit_listing.specs.ListingTexts.{Adds};

use crate::small_texts::push_release;
use std::alloc::AllocError;
use wit_package_names::PackageName;
use wit_values::Release;

/// A version after `@`, where there is one.
fn push_at_version(text: &mut String, version: &Option<Release>) -> Result<(), AllocError>
    ensures { OnOk result (Adds text.old text.new (at_version version.now)) }
{
    match version {
        Some(release) => {
            text.push('@')?;
            push_release(text, release)
        }
        None => Ok(()),
    }
}

/// The name of a package.
pub fn push_package_name(text: &mut String, name: &PackageName) -> Result<(), AllocError>
    ensures { OnOk result (Adds text.old text.new (name_text name.now)) }
{
    text.push_str(name.namespace.as_str())?;
    text.push(':')?;
    text.push_str(name.name.as_str())?;
    push_at_version(text, &name.version)
}
