//! Prefixes of names, as `[get]`.
ghost use Rattle.std.specs.Prelude.{◌≡◌};
ghost use Rattle.std.specs.Option.{option_copied};
ghost use Rattle.wit_names.specs.Prefix.{rest_after, is_after};
ghost use Rattle.wit_names.specs.Label.{is_label};

use crate::label::validate_id;

/// The text without the prefix, where it has that prefix.
pub fn rest_after<'a>(text: &'a str, prefix: &str) -> Option<&'a str>
    ensures { option_copied result ≡ rest_after prefix.now text.now }
{
    text.strip_prefix(prefix)
}

/// Whether the text is a label.
pub(crate) fn is_label(text: &str) -> bool
    ensures { result ≡ is_label text.now }
{
    validate_id(text).is_ok()
}

/// Whether the text has the prefix, and after it is a label.
pub(crate) fn is_label_after(text: &str, prefix: &str) -> bool
    ensures { result ≡ is_after is_label prefix.now text.now }
{
    match rest_after(text, prefix) {
        Some(rest) => is_label(rest),
        None => false,
    }
}
