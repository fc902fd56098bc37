//! What holds of all versions, how they are compared and ordered, and of accessors and the default span.
ghost use Rattle.std.specs.Prelude.{◌≡◌, ◌↔◌, IsTrue};
ghost use Rattle.wit_values.specs.ReleaseOrder.{release_cmp};

use crate::accessor::AccessorKind;
use crate::release::Release;
use crate::span::Span;
use std::cmp::Ordering;

/// Whether two versions are the same, build metadata included.
pub fn is_same_release(a: &Release, b: &Release) -> bool
    ensures { IsTrue result ↔ (a.now ≡ b.now) }
{
    a == b
}

/// The order of two versions: by their numbers, then by pre-release and by build metadata.
pub fn compare_releases(a: &Release, b: &Release) -> Ordering
    ensures { result ≡ release_cmp a.now b.now }
{
    a.cmp(b)
}

/// Whether two kinds of accessors are the same.
pub fn is_same_accessor_kind(a: AccessorKind, b: AccessorKind) -> bool
    ensures { IsTrue result ↔ (a ≡ b) }
{
    a == b
}

/// The default span is (0, 0).
pub fn default_span() -> Span
    ensures start { result.start ≡ 0 }
    ensures end { result.end ≡ 0 }
{
    Span::default()
}
