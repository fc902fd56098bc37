//! The names of types on the sides of a scope, and the setters of an interface and of the sides of a world.
ghost use Rattle.std.specs.Prelude.{◌≡◌, ◌++◌, OnOk, map};
ghost use Rattle.std.specs.List.{list_any};
ghost use Rattle.wit_tree.specs.declared.tree.WorldSide.{WorldSide};
ghost use Rattle.wit_syntax.specs.Sides.{names_on};
ghost use Rattle.wit_first.specs.First.{Finds};
ghost use Rattle.wit_walk.specs.Setters.{is_setter};
ghost use Rattle.wit_rules.specs.Signatures.{function_view};
ghost use Rattle.wit_sides.specs.SideNames.{defined_on};
ghost use Rattle.wit_signatures.specs.FunctionsOfScope.{name_of_id, name_of_function};
ghost use Rattle.wit_externs.specs.Clash.{defined_fault, lone_setters, sides_setters, AreNamesWith, StayApart};

use wit_refusals::NameScope;
use wit_rules::borrowed::BorrowedFunction;
use wit_sides::Sides;
use wit_tree::ParseResult;
use wit_tree::tree::{FuncForm, Id, WorldSide};

/// Defines the names of types, one after the other: a world imports them.
///
/// The refusal is E17 at a name whose folded key an earlier one has, or a failed allocation.
pub fn define_names(in_use: &mut Sides, names: &[Id<'_>]) -> ParseResult<()>
    ensures defined { OnOk result ((s : WorldSide) → defined_on s in_use.new ≡ defined_on s in_use.old ++ names_on s (map name_of_id names.now)) }
    ensures differ { OnOk result (StayApart in_use.old in_use.new) }
    ensures first { Finds (defined_fault in_use.old.imports (map name_of_id names.now)) result }
{
    for name in names {
        in_use.define(WorldSide::Imported, name.name, name.span)?;
    }
    Ok(())
}

/// Whether a function is a setter.
fn sets(function: &BorrowedFunction<'_, '_>) -> bool
    ensures { result ≡ is_setter (function_view function.now).func.form }
{
    match function.form() {
        FuncForm::Setter => true,
        FuncForm::Plain | FuncForm::Async | FuncForm::Getter => false,
    }
}

/// Whether a setter is among functions.
fn have_setter(functions: &[BorrowedFunction<'_, '_>]) -> bool
    ensures { result ≡ list_any (λ h. is_setter (function_view h).func.form) functions.now }
{
    functions.iter().any(|function| sets(function))
}

/// Refuses a setter of an interface that has no getter of its spelling, where these are its names
/// and its functions.
///
/// The refusal is E18 at such a setter, or a failed allocation.
pub fn check_setters(
    functions: &[BorrowedFunction<'_, '_>],
    in_use: &NameScope,
    names: &[Id<'_>],
) -> ParseResult<()>
    requires { in_use.now ≡ map name_of_id names.now ++ map name_of_function (map function_view functions.now) }
    ensures first { Finds (lone_setters (map function_view functions.now)) result }
{
    if !have_setter(functions) {
        return Ok(());
    }
    in_use.check_setters()
}

/// Refuses a setter of a world that has no getter of its spelling on its side, where these are its
/// functions, and the names of its types and of what is on its sides are defined: first one that is
/// imported.
///
/// The refusal is E18 at such a setter, or a failed allocation.
pub fn check_sides(
    functions: &[BorrowedFunction<'_, '_>],
    in_use: &Sides,
    names: &[Id<'_>],
) -> ParseResult<()>
    requires { AreNamesWith in_use.now names.now (map function_view functions.now) }
    ensures first { Finds (sides_setters (map function_view functions.now)) result }
{
    if !have_setter(functions) {
        return Ok(());
    }
    in_use.imports.check_setters()?;
    in_use.exports.check_setters()
}
