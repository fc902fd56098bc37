//! Names of a scope without a letter in upper case, which are their own keys.
ghost use Rattle.std.specs.Prelude.{◌≡◌};
ghost use Rattle.std.specs.Char.{is_ascii_uppercase};
ghost use Rattle.std.specs.List.{list_any};

use wit_refusals::repeats::has_upper_case;
use wit_tree::tree::Id;

/// Whether a letter of some name is upper case.
pub fn have_upper_case(names: &[Id<'_>]) -> bool
    ensures { result ≡ list_any (λ id. list_any is_ascii_uppercase id.name.now) names.now }
{
    names.iter().any(|id| has_upper_case(id.name))
}
