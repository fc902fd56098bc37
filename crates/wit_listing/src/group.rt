//! The listing of a group: of a package and of those that are nested in it.
ghost use Rattle.std.specs.Prelude.{◌≡◌, [], ◌++◌, IfOk, OnOk, string_bytes};
ghost use Rattle.std.specs.List.{flat_map};
ghost use Rattle.wit_listing.specs.ListingTexts.{Adds};
ghost use Rattle.wit_listing.specs.Output.{IsWritten};
ghost use Rattle.wit_listing.specs.Package.{package_text};
ghost use Rattle.wit_listing.specs.Listing.{listing_text};

use crate::fault::RunFault;
use crate::output::put;
use crate::package::push_package;
use std::alloc::{AllocError, Global};
use std::io::Write;
use wit_model::UnresolvedPackage;

/// Packages, one after the other.
fn push_packages(text: &mut String, packages: &[UnresolvedPackage]) -> Result<(), AllocError>
    ensures { OnOk result (Adds text.old text.new (flat_map package_text packages.now)) }
{
    for resolved in packages {
        push_package(text, resolved)?;
    }
    Ok(())
}

/// A text with room for the listing of a package, so that it seldom grows: what an entry, an interface
/// or a world has in it takes some ninety bytes.
fn empty_listing(alloc: Global, main: &UnresolvedPackage) -> Result<String, AllocError>
    ensures { IfOk result (λ text. string_bytes text ≡ []) }
{
    let parts = main.types.len().saturating_add(main.interfaces.len());
    let lines = parts.saturating_add(main.worlds.len());
    String::with_capacity(alloc, lines.saturating_mul(90))
}

/// The listing, as a text.
fn listing_of(
    alloc: Global,
    main: &UnresolvedPackage,
    nested: &[UnresolvedPackage],
) -> Result<String, AllocError>
    ensures { IfOk result (λ text. string_bytes text ≡ listing_text main.now nested.now) }
{
    let mut text = empty_listing(alloc, main)?;
    push_package(&mut text, main)?;
    push_packages(&mut text, nested)?;
    Ok(text)
}

/// Writes the listing of a package, and after it, in the same way, of those that are nested in it: of
/// each its name, its types, its interfaces, its worlds, and what it names of other packages, a line for
/// each and for what it holds.
///
/// Where a write fails or takes no byte, a beginning of the listing went out, and not the whole; for
/// a failed allocation, nothing.
pub fn listing<W: Write>(
    alloc: Global,
    main: &UnresolvedPackage,
    nested: &[UnresolvedPackage],
    out: &mut W,
) -> Result<(), RunFault>
    ensures { IsWritten (λ text. text ≡ listing_text main.now nested.now) (W.contents out.old) (W.contents out.new) result }
{
    let text = listing_of(alloc, main, nested)?;
    put(out, text.as_bytes())
}
