//! Whether each setter comes directly after its getter already.
ghost use Rattle.std.specs.Prelude.{◌≡◌, ◌<◌, length, nat_eq, IsTrue};
ghost use Rattle.std.specs.Cmp.Lexicographic.{pointwise};
ghost use Rattle.std.specs.Option.{option_copied};
ghost use Rattle.wit_functions.specs.SettersPlaced.{prefixes as the_prefixes, goes_on_alike, is_getter_of, both};
ghost use Rattle.wit_setters.specs.Paired.{ArePaired, IsPaired};

use wit_functions::maybe_function::is_setter;
use wit_model::Function;
use wit_model::setters::{is_getter, prefixes};
use wit_names::prefix::rest_after;

fn is_same_text(a: Option<&str>, b: Option<&str>) -> bool
    ensures { result ≡ both (pointwise nat_eq) (option_copied a.entry) (option_copied b.entry) }
{
    match a {
        Some(a) => match b {
            Some(b) => a == b,
            None => false,
        },
        None => false,
    }
}

/// Whether the name of a setter goes on after its prefix as another name does after that of the
/// setter's getter.
fn goes_on_alike(setter: &Function, getter: &Function) -> bool
    ensures { result ≡ goes_on_alike (the_prefixes setter.now.kind) setter.now.name getter.now.name }
{
    match prefixes(setter.kind) {
        Some((set, get)) => is_same_text(
            rest_after(setter.name.as_str(), set),
            rest_after(getter.name.as_str(), get),
        ),
        None => false,
    }
}

/// Whether one is a setter, and the other its getter.
fn is_getter_of(setter: &Function, getter: &Function) -> bool
    ensures { result ≡ is_getter_of setter.now getter.now }
{
    is_getter(getter.kind) && goes_on_alike(setter, getter)
}

/// Whether the function at a place is no setter, or comes directly after its getter.
fn is_paired(functions: &[Function], place: usize) -> bool
    requires { place < length functions.now }
    ensures { IsTrue result → IsPaired functions.now place }
{
    let function = &functions[place];
    if !is_setter(Some(function)) {
        return true;
    }
    if place == 0 {
        return false;
    }
    is_getter_of(function, &functions[place - 1])
}

/// Whether each setter comes directly after its getter.
pub(crate) fn are_paired(functions: &[Function]) -> bool
    ensures { IsTrue result → ArePaired functions.now }
{
    for place in 0..functions.len() {
        if !is_paired(functions, place) {
            return false;
        }
    }
    true
}
