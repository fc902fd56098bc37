//! Versions as `semver` reads them.
ghost use Rattle.std.specs.Prelude.{IfOk};
ghost use Rattle.wit_lex.specs.VersionEnds.{IsParsed};

use semver::Version;
use std::alloc::{AllocError, Global};

/// What `semver` reads in a text, or None where it refuses it.
pub fn parse_version(alloc: Global, text: &str) -> Result<Option<Version>, AllocError>
    ensures { IfOk result (IsParsed text.now) }
{
    match Version::parse(alloc, text) {
        Ok(version) => Ok(Some(version)),
        Err(e) => {
            if e == semver::Error::from(AllocError) {
                Err(AllocError)
            } else {
                Ok(None)
            }
        }
    }
}
