//! Items of which some are functions, and the names by which a setter finds its getter.
ghost use Rattle.std.specs.Prelude.{◌≡◌, IfOk, Some, string_bytes};
ghost use Rattle.std.specs.Option.{option_copied, option_map};
ghost use Rattle.wit_functions.specs.declared.function.Function.{Function as TheFunction};
ghost use Rattle.wit_functions.specs.MaybeFunction.{is_setter, offered, wanted};

use crate::function::Function;
use crate::setters::{is_getter, prefixes};
use std::alloc::{AllocError, Global};
use wit_names::prefix::rest_after;

/// What may be a function.
pub trait MaybeFunction: Drop {
    ghost use Rattle.std.specs.Prelude.{Option};

    ghost function_at: { Self → Option TheFunction };

    /// The function that it is, if it is one.
    fn maybe_function(&self) -> Option<&Function>
        ensures { option_copied result ≡ function_at self.now };
}

impl MaybeFunction for Function {
    ghost function_at = { Some };

    fn maybe_function(&self) -> Option<&Function> {
        Some(self)
    }
}

impl<'a> MaybeFunction for Option<&'a Function> {
    ghost function_at = { option_copied };

    fn maybe_function(&self) -> Option<&Function> {
        *self
    }
}

impl<K: Drop, V: MaybeFunction> MaybeFunction for (K, V) {
    ghost function_at = { λ e. V.function_at e.1 };

    fn maybe_function(&self) -> Option<&Function> {
        self.1.maybe_function()
    }
}

/// Whether it is a setter.
pub fn is_setter(maybe_function: Option<&Function>) -> bool
    ensures { result ≡ is_setter (option_copied maybe_function.entry) }
{
    match maybe_function {
        Some(function) => prefixes(function.kind).is_some(),
        None => false,
    }
}

/// The name of a setter's getter.
pub fn wanted(
    alloc: Global,
    maybe_function: Option<&Function>,
) -> Result<Option<String>, AllocError>
    ensures { IfOk result (λ name. option_map string_bytes name ≡ wanted (option_copied maybe_function.entry)) }
{
    match maybe_function {
        Some(function) => getter_name(alloc, function),
        None => Ok(None),
    }
}

/// The name of a setter's getter, of a function.
fn getter_name(alloc: Global, function: &Function) -> Result<Option<String>, AllocError>
    ensures { IfOk result (λ name. option_map string_bytes name ≡ wanted (Some function.now)) }
{
    match prefixes(function.kind) {
        Some((set, get)) => match rest_after(function.name.as_str(), set) {
            Some(rest) => Ok(Some(format!(in alloc; "{get}{rest}")?)),
            None => Ok(None),
        },
        None => Ok(None),
    }
}

/// The name of a getter.
pub fn offered(maybe_function: Option<&Function>) -> Option<&str>
    ensures { option_copied result ≡ offered (option_copied maybe_function.entry) }
{
    match maybe_function {
        Some(function) => {
            if is_getter(function.kind) {
                Some(function.name.as_str())
            } else {
                None
            }
        }
        None => None,
    }
}
