//! The names of functions: the name of the item, and that of an export.
ghost use Rattle.std.specs.Prelude.{◌≡◌, ◌↔◌, IsTrue, IfOk, IfNone, string_bytes};
ghost use Rattle.std.specs.Cow.{IsBorrowedStr, cow_str_bytes};
ghost use Rattle.std.specs.Result.{IsOkAnd};
ghost use Rattle.std.specs.Option.{option_copied};
ghost use Rattle.wit_functions.specs.FunctionNames.{HasMark, HasMarkOf, rest_after_first, export_name, item_name, legacy_name, mark_of, standard_name};

use crate::abi::Mangling;
use crate::function::{Function, FunctionKind};
use std::alloc::{AllocError, Global};
use std::borrow::CowStr;

fn after_dot(name: &str) -> &str
    requires { HasMark 46 name.now }
    ensures { result.now ≡ rest_after_first 46 name.now }
{
    match name.split_once('.') {
        Some((_, rest)) => rest,
        None => unreachable!(),
    }
}

fn after_bracket(name: &str) -> &str
    requires { HasMark 93 name.now }
    ensures { result.now ≡ rest_after_first 93 name.now }
{
    match name.split_once(']') {
        Some((_, rest)) => rest,
        None => unreachable!(),
    }
}

fn standard_name(alloc: Global, interface: Option<&str>, name: &str) -> Result<String, AllocError>
    ensures { IfOk result (λ t. string_bytes t ≡ standard_name (option_copied interface.entry) name.now) }
{
    match interface {
        Some(interface) => format!(in alloc; "cm32p2|{interface}|{name}"),
        None => format!(in alloc; "cm32p2||{name}"),
    }
}

impl Function {
    /// Whether the name has the mark before the item's name: a `]` in that of an accessor outside a
    /// resource, a `.` in that of a method or static function. Any other name needs none.
    ///
    /// Where it does, [`Function::item_name`] can be called.
    pub fn has_mark(&self) -> bool
        ensures { IsTrue result ↔ HasMarkOf (mark_of self.now.kind) self.now.name }
    {
        let name = self.name.as_str().as_bytes();
        match self.kind {
            FunctionKind::Freestanding
            | FunctionKind::AsyncFreestanding
            | FunctionKind::Constructor(_) => true,
            FunctionKind::Getter | FunctionKind::Setter => name.contains(&b']'),
            _ => name.contains(&b'.'),
        }
    }

    /// The name of the item, without the marks of its kind: `f` of `[method]r.f`, and
    /// `constructor` of every constructor.
    ///
    /// The name of an accessor outside a resource has a `]`, that of a method or static
    /// function a `.`.
    pub fn item_name(&self) -> &str
        requires { HasMarkOf (mark_of self.now.kind) self.now.name }
        ensures { result.now ≡ item_name self.now.kind self.now.name }
    {
        let name = self.name.as_str();
        match self.kind {
            FunctionKind::Freestanding | FunctionKind::AsyncFreestanding => name,
            FunctionKind::Getter | FunctionKind::Setter => after_bracket(name),
            FunctionKind::Method(_)
            | FunctionKind::AsyncMethod(_)
            | FunctionKind::MethodGetter(_)
            | FunctionKind::MethodSetter(_)
            | FunctionKind::Static(_)
            | FunctionKind::AsyncStatic(_)
            | FunctionKind::StaticGetter(_)
            | FunctionKind::StaticSetter(_) => after_dot(name),
            FunctionKind::Constructor(_) => "constructor",
        }
    }

    /// The name of the function as an export of a core module.
    pub fn core_export_name(
        &self,
        alloc: Global,
        interface: Option<&str>,
        mangling: Mangling,
    ) -> Result<CowStr<'_>, AllocError>
        ensures name { IfOk result (λ t. cow_str_bytes t ≡ export_name mangling (option_copied interface.entry) self.now.name) }
        ensures borrowed { mangling ≡ Mangling.Legacy → IfNone interface.entry (IsOkAnd result IsBorrowedStr) }
    {
        match mangling {
            Mangling::Standard32 => self.standard32_core_export_name(alloc, interface),
            Mangling::Legacy => self.legacy_core_export_name(alloc, interface),
        }
    }

    /// The name as an export by the standard spelling, as `cm32p2|interface|name`.
    pub fn standard32_core_export_name(
        &self,
        alloc: Global,
        interface: Option<&str>,
    ) -> Result<CowStr<'_>, AllocError>
        ensures { IfOk result (λ t. cow_str_bytes t ≡ standard_name (option_copied interface.entry) self.now.name) }
    {
        let text = standard_name(alloc, interface, self.name.as_str())?;
        Ok(CowStr::Owned(text))
    }

    /// The name as an export by the older spelling, as `interface#name`; without an interface
    /// the name itself, borrowed.
    pub fn legacy_core_export_name(
        &self,
        alloc: Global,
        interface: Option<&str>,
    ) -> Result<CowStr<'_>, AllocError>
        ensures name { IfOk result (λ t. cow_str_bytes t ≡ legacy_name (option_copied interface.entry) self.now.name) }
        ensures borrowed { IfNone interface.entry (IsOkAnd result IsBorrowedStr) }
    {
        let name = self.name.as_str();
        match interface {
            Some(interface) => {
                let text = format!(in alloc; "{interface}#{name}")?;
                Ok(CowStr::Owned(text))
            }
            None => Ok(CowStr::Borrowed(name)),
        }
    }
}
