//! How names are spelled and functions are called across a component's boundary.
ghost use Rattle.std.specs.Prelude.{◌≡◌, IfErr, Some};
ghost use Rattle.std.specs.Result.{result_ok};
ghost use Rattle.wit_functions.specs.Abi.{abi_of, choice_for, export_of, fault_text, import_of, in_sync, mangling_named, mangling_of, waits};

use crate::function::Function;
use std::error::Error;
use std::fmt;

/// How the names of imports and exports are spelled.
#[derive(Debug, Clone, Copy, PartialEq, Eq, Hash)]
pub enum Mangling {
    Standard32,
    Legacy,
}

/// How a function is lifted or lowered.
#[derive(Debug, Clone, Copy, PartialEq, Eq, Hash)]
pub enum LiftLowerAbi {
    Sync,
    AsyncCallback,
    AsyncStackful,
}

/// A spelling of names, with a way of lifting and lowering where it leaves one open.
#[derive(Debug, Clone, Copy, PartialEq, Eq, Hash)]
pub enum ManglingAndAbi {
    Standard32,
    Legacy(LiftLowerAbi),
}

/// On which side of the FFI a function is, and how it is called.
#[derive(Debug, Clone, Copy, PartialEq, Eq)]
pub enum AbiVariant {
    GuestImport,
    GuestExport,
    GuestImportAsync,
    GuestExportAsync,
    GuestExportAsyncStackful,
}

/// A name that no spelling has.
#[derive(Debug, Clone, Copy, PartialEq, Eq)]
pub struct ManglingFault<'a> {
    /// The name.
    pub name: &'a str,
}

impl<'a> fmt::Display for ManglingFault<'a> {
    ghost output = { λ e. Some (fault_text e.name.now) };

    fn fmt<W: fmt::Write>(&self, f: &mut fmt::Formatter<W>) -> fmt::Result {
        let name = self.name;
        write!(
            f,
            "unknown name mangling `{name}`, supported values are `legacy` or `standard32`"
        )
    }
}

impl<'a> Error for ManglingFault<'a> {}

impl Mangling {
    /// The spelling of this name: `legacy` or `standard32`. The error is any other name.
    pub fn from_str<'a>(name: &'a str) -> Result<Mangling, ManglingFault<'a>>
        ensures mangling { result_ok result ≡ mangling_named name.now }
        ensures fault { IfErr result (λ e. e.name.now ≡ name.now) }
    {
        match name {
            "legacy" => Ok(Mangling::Legacy),
            "standard32" => Ok(Mangling::Standard32),
            _ => Err(ManglingFault { name }),
        }
    }
}

impl LiftLowerAbi {
    /// How an imported function is called.
    pub fn import_variant(self) -> AbiVariant
        ensures { result ≡ import_of self }
    {
        match self {
            LiftLowerAbi::Sync => AbiVariant::GuestImport,
            LiftLowerAbi::AsyncCallback | LiftLowerAbi::AsyncStackful => {
                AbiVariant::GuestImportAsync
            }
        }
    }

    /// How an exported function is called.
    pub fn export_variant(self) -> AbiVariant
        ensures { result ≡ export_of self }
    {
        match self {
            LiftLowerAbi::Sync => AbiVariant::GuestExport,
            LiftLowerAbi::AsyncCallback => AbiVariant::GuestExportAsync,
            LiftLowerAbi::AsyncStackful => AbiVariant::GuestExportAsyncStackful,
        }
    }
}

impl ManglingAndAbi {
    /// How an imported function is called.
    pub fn import_variant(self) -> AbiVariant
        ensures { result ≡ import_of (abi_of self) }
    {
        match self {
            ManglingAndAbi::Standard32 => AbiVariant::GuestImport,
            ManglingAndAbi::Legacy(abi) => abi.import_variant(),
        }
    }

    /// How an exported function is called.
    pub fn export_variant(self) -> AbiVariant
        ensures { result ≡ export_of (abi_of self) }
    {
        match self {
            ManglingAndAbi::Standard32 => AbiVariant::GuestExport,
            ManglingAndAbi::Legacy(abi) => abi.export_variant(),
        }
    }

    /// The same spelling, with calls that do not wait.
    pub fn sync(self) -> ManglingAndAbi
        ensures { result ≡ in_sync self }
    {
        match self {
            ManglingAndAbi::Standard32 => ManglingAndAbi::Standard32,
            ManglingAndAbi::Legacy(_) => ManglingAndAbi::Legacy(LiftLowerAbi::Sync),
        }
    }

    /// Whether calls may wait.
    pub fn is_async(&self) -> bool
        ensures { result ≡ waits (abi_of self.now) }
    {
        match self {
            ManglingAndAbi::Standard32 | ManglingAndAbi::Legacy(LiftLowerAbi::Sync) => false,
            ManglingAndAbi::Legacy(LiftLowerAbi::AsyncCallback)
            | ManglingAndAbi::Legacy(LiftLowerAbi::AsyncStackful) => true,
        }
    }

    /// How names are spelled.
    pub fn mangling(&self) -> Mangling
        ensures { result ≡ mangling_of self.now }
    {
        match self {
            ManglingAndAbi::Standard32 => Mangling::Standard32,
            ManglingAndAbi::Legacy(_) => Mangling::Legacy,
        }
    }

    /// The choice for a function: calls of one that is not asynchronous never wait.
    pub fn for_func(&self, function: &Function) -> ManglingAndAbi
        ensures { result ≡ choice_for self.now function.now.kind }
    {
        if function.kind.is_async() {
            *self
        } else {
            self.sync()
        }
    }
}
