//! Names of functions, where nothing else is on the sides of a scope.
ghost use Rattle.std.specs.Prelude.{◌≡◌, ◌∷◌, [], IsTrue, OnOk};
ghost use Rattle.wit_names.specs.Mangled.{is_mangled};
ghost use Rattle.wit_syntax.specs.Sides.{SideFunction, role_side};
ghost use Rattle.wit_first.specs.First.{Finds};
ghost use Rattle.wit_sides.specs.SideNames.{defined_on};
ghost use Rattle.wit_rules.specs.Signatures.{function_view};
ghost use Rattle.wit_signatures.specs.FunctionsOfScope.{name_of_made, name_of_function};
ghost use Rattle.wit_externs.specs.Clash.{again_fault, DefinesNames, StayApart};

use wit_functions::Function;
use wit_rules::borrowed::BorrowedFunction;
use wit_sides::Sides;
use wit_tree::ParseResult;

/// Defines the name of a function on its side, after the others.
///
/// Refused under E17, where an earlier name of the side has its folded key, and under E45 if an
/// allocation failed.
pub fn define_alone(
    borrowed: BorrowedFunction<'_, '_>,
    in_use: &mut Sides,
    function: &Function,
) -> ParseResult<()>
    requires mangled { IsTrue (is_mangled function.now.name) }
    requires borrowed { name_of_made function.now ≡ name_of_function (function_view borrowed) }
    ensures defined { OnOk result (DefinesNames in_use.old in_use.new (SideFunction (function_view borrowed.entry) ∷ [])) }
    ensures differ { OnOk result (StayApart in_use.old in_use.new) }
    ensures first { Finds (again_fault (defined_on (role_side (function_view borrowed.entry).role) in_use.old) (name_of_function (function_view borrowed.entry))) result }
{
    let name = function.name.as_str();
    in_use.define(borrowed.side(), name, function.span)
}
