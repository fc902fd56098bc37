//! What handles require, put after what was required before.
ghost use Rattle.std.specs.Prelude.{◌≡◌, ◌<◌, ◌++◌, OnOk};

use std::alloc::AllocError;
use wit_entries::scope::Required;

/// Adds what handles of a scope require after what others do.
pub fn add_required(required: &mut Vec<Required>, own: &[Required]) -> Result<(), AllocError>
    ensures { OnOk result (required.new.items ≡ required.old.items ++ own.now) }
{
    for one in own {
        required.push(*one)?;
    }
    Ok(())
}
