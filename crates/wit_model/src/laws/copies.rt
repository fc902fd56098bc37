//! Copies: each is equal to its source.
ghost use Rattle.std.specs.Prelude.{◌≡◌, IfOk};

use crate::world::{WorldInclude, WorldKey};
use std::alloc::AllocError;
use wit_package_names::package_name::PackageName;
pub use wit_types::laws::copies::{copy_docs, copy_kind, copy_stability};

/// A copy of a package's name.
pub fn copy_package_name(name: &PackageName) -> Result<PackageName, AllocError>
    ensures { IfOk result (λ copy. copy ≡ name.now) }
{
    name.clone()
}

/// A copy of a key of a world.
pub fn copy_world_key(key: &WorldKey) -> Result<WorldKey, AllocError>
    ensures { IfOk result (λ copy. copy ≡ key.now) }
{
    key.clone()
}

/// A copy of what a world includes.
pub fn copy_world_include(include: &WorldInclude) -> Result<WorldInclude, AllocError>
    ensures { IfOk result (λ copy. copy ≡ include.now) }
{
    include.clone()
}
