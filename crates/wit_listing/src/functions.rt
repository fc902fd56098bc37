//! Functions in a listing.
ghost use Rattle.std.specs.Prelude.{[], ◌≡◌, ◌++◌, OnOk, codes, if◌then◌else◌, string_bytes};
ghost use Rattle.wit_listing.specs.Lists.{numbered};
ghost use Rattle.wit_listing.specs.ListingTexts.{Adds};
ghost use Rattle.wit_listing.specs.Functions.{parameter_text, result_text, signature_text};

use crate::small_texts::push_type;
use std::alloc::AllocError;
use wit_model::{Function, Param};
use wit_types::Type;

/// A parameter, with a comma before it unless it is the first.
fn push_parameter(text: &mut String, place: usize, param: &Param) -> Result<(), AllocError>
    ensures { OnOk result (Adds text.old text.new (parameter_text place param.now)) }
{
    if place > 0 {
        text.push(',')?;
        text.push(' ')?;
    }
    text.push_str(param.name.as_str())?;
    text.push(':')?;
    push_type(text, param.ty)
}

fn push_parameters(text: &mut String, params: &[Param]) -> Result<(), AllocError>
    ensures { OnOk result (Adds text.old text.new (numbered parameter_text 0 params.now)) }
{
    for (place, param) in params.iter().enumerate() {
        push_parameter(text, place, param)?;
    }
    Ok(())
}

fn push_result(text: &mut String, result_type: Option<Type>) -> Result<(), AllocError>
    ensures { OnOk result (Adds text.old text.new (result_text result_type)) }
{
    match result_type {
        Some(ty) => {
            text.push_str(" -> ")?;
            push_type(text, ty)
        }
        None => Ok(()),
    }
}

/// The words before what a function takes.
fn push_front(text: &mut String, is_async: bool) -> Result<(), AllocError>
    ensures { OnOk result (Adds text.old text.new (codes " = " ++ ((if is_async then codes "async " else []) ++ codes "func("))) }
{
    if is_async {
        text.push_str(" = async func(")
    } else {
        text.push_str(" = func(")
    }
}

/// What a function takes and gives, after a sign of equality.
pub fn push_signature(text: &mut String, function: &Function) -> Result<(), AllocError>
    ensures { OnOk result (Adds text.old text.new (codes " = " ++ signature_text function.now)) }
{
    push_front(text, function.kind.is_async())?;
    push_parameters(text, function.params.as_slice())?;
    text.push(')')?;
    push_result(text, function.result)
}
