//! The imports of a world, with their full names.

use std::alloc::{AllocError, Global};
use tulfjak::refs::WorldRef;

/// Writes the name of a world, and that of each import: an interface's with its package and version,
/// whichever package declares it.
pub fn push_imports(
    alloc: Global,
    text: &mut String,
    world: &WorldRef<'_>,
) -> Result<(), AllocError> {
    write!(text, "world {}\n", world.name())?;
    for item in world.imports() {
        if let Some(name) = item.name(alloc)? {
            write!(text, "  {name}\n")?;
        }
    }
    Ok(())
}
