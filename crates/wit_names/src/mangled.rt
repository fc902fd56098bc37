//! Mangled names.
ghost use Rattle.std.specs.Prelude.{◌≡◌, ◌↔◌, IsTrue};
ghost use Rattle.wit_names.specs.Prefix.{is_after};
ghost use Rattle.wit_names.specs.Mangled.{is_accessed, is_dotted, is_mangled};

use crate::prefix::{is_label, is_label_after, rest_after};

/// Whether the text is two labels with a dot between them.
pub(crate) fn is_dotted(text: &str) -> bool
    ensures { result ≡ is_dotted text.now }
{
    match text.split_once('.') {
        Some((owner, member)) => is_label(owner) && is_label(member),
        None => false,
    }
}

/// Whether the text has the prefix, and after it are two labels with a dot between them.
pub(crate) fn is_dotted_after(text: &str, prefix: &str) -> bool
    ensures { result ≡ is_after is_dotted prefix.now text.now }
{
    match rest_after(text, prefix) {
        Some(rest) => is_dotted(rest),
        None => false,
    }
}

fn is_accessed_dotted(text: &str) -> bool
    ensures { result ≡ is_accessed is_dotted text.now }
{
    is_dotted(text) || is_dotted_after(text, "[get]") || is_dotted_after(text, "[set]")
}

fn is_accessed_dotted_after(text: &str, prefix: &str) -> bool
    ensures { result ≡ is_after (is_accessed is_dotted) prefix.now text.now }
{
    match rest_after(text, prefix) {
        Some(rest) => is_accessed_dotted(rest),
        None => false,
    }
}

/// Whether the text is a mangled name.
///
/// These are `f`, `[get]f`, `[set]f`, `[constructor]r`, and after `[method]` or `[static]` each
/// of `r.f`, `[get]r.f` and `[set]r.f`, where `f` and `r` are labels.
pub fn is_mangled(name: &str) -> bool
    ensures { IsTrue result ↔ IsTrue (is_mangled name.now) }
{
    is_label(name)
        || is_label_after(name, "[get]")
        || is_label_after(name, "[set]")
        || is_label_after(name, "[constructor]")
        || is_accessed_dotted_after(name, "[method]")
        || is_accessed_dotted_after(name, "[static]")
}
