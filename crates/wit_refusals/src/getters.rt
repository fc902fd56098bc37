//! Whether a name is that of a setter's getter.
ghost use Rattle.std.specs.Prelude.{◌≡◌, ◌++◌, IsTrue};
ghost use Rattle.wit_names.specs.Setter.{getter_of};

use wit_names::prefix::rest_after;

/// Whether a text is a prefix and another text after it.
fn is_joined(text: &str, prefix: &str, rest: &str) -> bool
    ensures { IsTrue result → text.now ≡ prefix.now ++ rest.now }
{
    match rest_after(text, prefix) {
        Some(found) => found == rest,
        None => false,
    }
}

/// Whether a name is that of a setter's getter.
pub(crate) fn is_getter_name(name: &str, setter: &str) -> bool
    ensures { IsTrue result → name.now ≡ getter_of setter.now }
{
    match rest_after(setter, "[method][set]") {
        Some(rest) => is_joined(name, "[method][get]", rest),
        None => match rest_after(setter, "[static][set]") {
            Some(rest) => is_joined(name, "[static][get]", rest),
            None => match rest_after(setter, "[set]") {
                Some(rest) => is_joined(name, "[get]", rest),
                None => name == setter,
            },
        },
    }
}
