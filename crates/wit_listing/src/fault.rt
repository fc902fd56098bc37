//! Why a text was not written whole.

use std::alloc::AllocError;
use std::error::Error;
use std::{fmt, io};

/// Why a text was not written whole.
#[derive(Clone, Copy, Debug, PartialEq, Eq)]
pub enum RunFault {
    /// A write failed or took no byte.
    Output,
    /// A growth was refused.
    Memory,
}

impl fmt::Display for RunFault {
    ghost use Rattle.std.specs.Prelude.{Some};
    ghost use Rattle.wit_listing.specs.Output.{fault_text};

    ghost output = { λ fault. Some (fault_text fault) };

    fn fmt<W: fmt::Write>(&self, f: &mut fmt::Formatter<W>) -> fmt::Result {
        match self {
            RunFault::Output => f.write_str("write failed"),
            RunFault::Memory => f.write_str("out of memory"),
        }
    }
}

impl Error for RunFault {}

impl From<AllocError> for RunFault {
    ghost use Rattle.std.specs.Prelude.{◌≡◌};
    ghost use Rattle.wit_listing.specs.declared.fault.RunFault.TheVariants.{Memory};

    ghost from_gives = { λ _ fault. fault ≡ Memory };

    fn from(_e: AllocError) -> RunFault {
        RunFault::Memory
    }
}

impl From<RunFault> for io::Error {
    ghost use Rattle.std.specs.Prelude.{◌≡◌};
    ghost use Rattle.std.specs.IoError.{error_kind};
    ghost use Rattle.wit_listing.specs.Output.{fault_kind};

    ghost from_gives = { λ fault error. error_kind error ≡ fault_kind fault };

    fn from(fault: RunFault) -> io::Error {
        match fault {
            RunFault::Output => io::Error::from(io::ErrorKind::Other),
            RunFault::Memory => io::Error::from(io::ErrorKind::OutOfMemory),
        }
    }
}
