//! Setters of an interface that are written before their getters, put directly after them.
ghost use Rattle.std.specs.Prelude.{◌≡◌, IfOk, map};
ghost use Rattle.wit_functions.specs.SettersPlaced.{is_getter_of, setters_placed};
ghost use Rattle.wit_syntax.specs.Repeats.{AllDiffer};

use crate::paired::are_paired;
use std::alloc::{AllocError, Global};
use wit_functions::function_items::after_getters;
use wit_model::Function;

/// Functions, where each setter that comes before its getter comes directly after it instead.
pub fn setters_after_getters(
    alloc: Global,
    functions: Vec<Function>,
) -> Result<Vec<Function>, AllocError>
    requires { AllDiffer (map (λ f. f.name) functions.items) }
    ensures { IfOk result (λ placed. placed.items ≡ setters_placed is_getter_of functions.items) }
{
    if are_paired(&functions) {
        return Ok(functions);
    }
    let placed = after_getters(alloc, functions)?;
    Ok(placed)
}
