//! The refusal of a text in plain fields, if its sources are refused.
ghost use Rattle.std.specs.Prelude.{◌≡◌};
ghost use Rattle.wit_outcome.specs.Plain.{no_refusal};
ghost use Rattle.wit_ffi.specs.Checked.{IsChecked};

use crate::status::{MADE, NO_MEMORY, NO_TEXT, REFUSED};
use std::alloc::Global;
use std::str;
use wit_outcome::plain::no_refusal;
use wit_outcome::{Outcome, Plain, resolve_text};

/// A status, and with `REFUSED` a refusal.
#[derive(Drop)]
pub(crate) struct Checked {
    pub(crate) status: u8,
    pub(crate) plain: Plain,
}

/// A status without a refusal.
fn bare(alloc: Global, status: u8) -> Checked
    ensures status { result.status ≡ status }
    ensures plain { result.plain ≡ no_refusal }
{
    Checked {
        status,
        plain: no_refusal(alloc),
    }
}

/// Whether bytes are a text whose sources are refused, and how.
pub(crate) fn check(alloc: Global, bytes: &[u8]) -> Checked
    ensures { IsChecked bytes.now result.status result.plain }
{
    let Ok(text) = str::from_utf8(bytes) else {
        return bare(alloc, NO_TEXT);
    };
    match resolve_text(alloc, text) {
        Ok(Outcome::Group(_)) => bare(alloc, MADE),
        Ok(Outcome::Refusal(plain)) => Checked {
            status: REFUSED,
            plain,
        },
        Err(_) => bare(alloc, NO_MEMORY),
    }
}
