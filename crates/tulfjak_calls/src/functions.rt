//! Functions as data: their kinds, names, types, and futures and streams.

use crate::answers::push_answer;
use crate::packages::is_moved;
use std::alloc::{AllocError, Global};
use tulfjak::package::{
    Function, FunctionKind, LiftLowerAbi, Mangling, ManglingAndAbi, Types, is_backward,
    reaches_unknown,
};

/// Adds what calls on a kind return.
fn push_kind(text: &mut String, kind: &FunctionKind) -> Result<(), AllocError> {
    let answers = (kind.is_async(), kind.accessor(), kind.resource());
    push_answer(text, "FunctionKind::is_async", &answers)
}

/// Adds the names of a function: its own, and those by which a core module exports it.
fn push_names(alloc: Global, text: &mut String, function: &Function) -> Result<(), AllocError> {
    if function.has_mark() {
        push_answer(text, "Function::item_name", &function.item_name())?;
    }
    let standard = function.standard32_core_export_name(alloc, None)?;
    let legacy = function.legacy_core_export_name(alloc, Some("a:b/c"))?;
    push_answer(text, "legacy_core_export_name", &(standard, legacy))?;
    let name = function.core_export_name(alloc, None, Mangling::Legacy)?;
    push_answer(text, "core_export_name", &name)
}

/// Adds the types of a function.
fn push_types(text: &mut String, types: &Types, function: &Function) -> Result<(), AllocError> {
    for ty in function.parameter_and_result_types() {
        push_answer(text, "parameter_and_result_types", &ty)?;
    }
    let choice = ManglingAndAbi::Legacy(LiftLowerAbi::AsyncStackful).for_func(function);
    let answers = (function.is_constructor_shorthand(types), choice);
    push_answer(text, "is_constructor_shorthand", &answers)
}

/// Adds the futures and streams of a function.
fn push_futures(
    alloc: Global,
    text: &mut String,
    types: &Types,
    function: &Function,
) -> Result<(), AllocError> {
    if is_backward(types) {
        let found = function.find_futures_and_streams(alloc, types)?;
        let answers = (reaches_unknown(types, function), found);
        push_answer(text, "find_futures_and_streams", &answers)?;
    }
    Ok(())
}

/// Adds what calls on a function return.
pub fn push_function(
    alloc: Global,
    text: &mut String,
    types: &Types,
    function: &Function,
) -> Result<(), AllocError> {
    push_kind(text, &function.kind)?;
    push_names(alloc, text, function)?;
    push_types(text, types, function)?;
    push_futures(alloc, text, types, function)?;
    push_answer(text, "Function::adjust_spans", &is_moved(function)?)
}
