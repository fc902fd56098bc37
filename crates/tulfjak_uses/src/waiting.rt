//! The futures and streams of functions.
ghost use Rattle.std.specs.Prelude.{◌<◌, ◌↔◌, IfOk, IsTrue, length};
ghost use Rattle.tulfjak.specs.Futures.{futures_of};

use std::alloc::{AllocError, Global};
use tulfjak::refs::{FunctionRef, InterfaceRef};

/// Whether a function takes or gives a future or a stream.
pub fn is_waiting(alloc: Global, function: &FunctionRef<'_>) -> Result<bool, AllocError>
    ensures { IfOk result (λ waits. IsTrue waits ↔ (0 < length (futures_of function.now.of.now.types function.now.function.now))) }
{
    let found = function.find_futures_and_streams(alloc)?;
    Ok(!found.is_empty())
}

/// Writes the futures and streams of a function.
fn push_futures(
    alloc: Global,
    text: &mut String,
    function: &FunctionRef<'_>,
) -> Result<(), AllocError> {
    let found = function.find_futures_and_streams(alloc)?;
    for id in &found {
        write!(text, " #{}", id.index())?;
    }
    Ok(())
}

/// Writes a line for each function of an interface, with its resource and its futures.
pub fn push_waiting(
    alloc: Global,
    text: &mut String,
    interface: &InterfaceRef<'_>,
) -> Result<(), AllocError> {
    for function in interface.functions() {
        if let Some(resource) = function.resource() {
            write!(text, "{}.", resource.name().unwrap_or("_"))?;
        }
        text.push_str(function.item_name())?;
        if is_waiting(alloc, &function)? {
            push_futures(alloc, text, &function)?;
        }
        text.push_str("\n")?;
    }
    Ok(())
}
