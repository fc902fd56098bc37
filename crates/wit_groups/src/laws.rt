//! What holds of all groups: how they are compared, and that a copy is the same.
ghost use Rattle.std.specs.Prelude.{◌↔◌, IfOk, IsTrue};
ghost use Rattle.wit_groups.specs.SameGroups.{IsSameGroup};

use crate::group::UnresolvedPackageGroup;
use std::alloc::AllocError;

/// Whether two groups have equal packages, whatever the order of their maps, and sources with equal paths,
/// texts and offsets.
pub fn is_same_group(a: &UnresolvedPackageGroup, b: &UnresolvedPackageGroup) -> bool
    ensures { IsTrue result ↔ IsSameGroup a.now b.now }
{
    a == b
}

/// Whether a group's copy is the same. Always true.
pub fn is_same_as_copy(group: &UnresolvedPackageGroup) -> Result<bool, AllocError>
    ensures { IfOk result IsTrue }
{
    let copy = group.clone()?;
    Ok(is_same_group(&copy, group))
}
