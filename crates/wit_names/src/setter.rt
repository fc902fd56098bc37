//! Setters, and the getter that goes with each.
ghost use Rattle.std.specs.Prelude.{◌≡◌, ◌↔◌, IfOk, IsTrue, string_bytes};
ghost use Rattle.wit_names.specs.Setter.{getter_of, is_setter};

use crate::mangled::is_dotted_after;
use crate::prefix::{is_label_after, rest_after};
use std::alloc::{AllocError, Global};

/// Whether the text is a setter's name: `[set]f`, `[method][set]r.f` or `[static][set]r.f`, where
/// `f` and `r` are labels.
pub fn is_setter(name: &str) -> bool
    ensures { IsTrue result ↔ IsTrue (is_setter name.now) }
{
    is_label_after(name, "[set]")
        || is_dotted_after(name, "[method][set]")
        || is_dotted_after(name, "[static][set]")
}

/// The name of the getter that a setter goes with: `[set]` becomes `[get]`, and all else stays.
///
/// The error is a failed allocation.
pub fn getter_for_setter(alloc: Global, name: &str) -> Result<String, AllocError>
    requires { IsTrue (is_setter name.now) }
    ensures { IfOk result (λ g. string_bytes g ≡ getter_of name.now) }
{
    match rest_after(name, "[method][set]") {
        Some(rest) => format!(in alloc; "[method][get]{rest}"),
        None => match rest_after(name, "[static][set]") {
            Some(rest) => format!(in alloc; "[static][get]{rest}"),
            None => match rest_after(name, "[set]") {
                Some(rest) => format!(in alloc; "[get]{rest}"),
                None => unreachable!(),
            },
        },
    }
}
