//! Setters of a world that includes nothing: each has its getter on its side, and comes after it.
ghost use Rattle.std.specs.Prelude.{if◌then◌else◌, None, ◌≡◌, List, IfOk, length, map};
ghost use Rattle.wit_tree.specs.declared.tree.Include.{Include};
ghost use Rattle.wit_first.specs.First.{Finds};
ghost use Rattle.wit_rules.specs.Signatures.{function_view};
ghost use Rattle.wit_externs.specs.Clash.{sides_setters, AreNamesWith};
ghost use Rattle.wit_world_sides.specs.Members.{AreSettled, none_of, AreKeyed};

use crate::members::Members;
use crate::sides::WorldSides;
use std::alloc::{AllocError, Global};
use wit_externs::in_use::check_sides;
use wit_model::WorldInclude;
use wit_rules::borrowed::BorrowedFunction;
use wit_setters::side_setters::place_setters;
use wit_sides::Sides;
use wit_tree::ParseResult;
use wit_tree::tree::Id;

/// Whether a world with these includes is closed: it includes nothing, so that no getter may come with
/// an include.
pub fn is_closed(includes: &[WorldInclude]) -> bool
    ensures { (written : List Include) → length includes.now ≡ length written → result ≡ none_of written }
{
    includes.len() == 0
}

/// Refuses a setter of a closed world that has no getter of its spelling on its side, where these are
/// its functions, and the names of its types and of what is on its sides are defined.
pub fn check_closed(
    closed: bool,
    functions: &[BorrowedFunction<'_, '_>],
    in_use: &Sides,
    names: &[Id<'_>],
) -> ParseResult<()>
    requires { AreNamesWith in_use.now names.now (map function_view functions.now) }
    ensures first { Finds (if closed then sides_setters (map function_view functions.now) else None) result }
{
    if closed {
        check_sides(functions, in_use, names)?;
    }
    Ok(())
}

/// What a world has on its sides: of a closed one with each setter after its getter.
pub fn settle(alloc: Global, members: Members, closed: bool) -> Result<WorldSides, AllocError>
    requires { AreKeyed members }
    ensures { IfOk result (AreSettled closed members.sides) }
{
    let sides = members.sides;
    if !closed {
        return Ok(sides);
    }
    Ok(WorldSides {
        imports: place_setters(alloc, sides.imports)?,
        exports: place_setters(alloc, sides.exports)?,
    })
}
