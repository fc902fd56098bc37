//! What a path ends in, and the sides of a world.
ghost use Rattle.std.specs.Prelude.{◌≡◌};
ghost use Rattle.wit_syntax.specs.ExternPart.{same_side};
ghost use Rattle.wit_syntax.specs.Source.{path_id as the_path};

use wit_tree::tree::{Id, UsePath, WorldSide};

/// The name that a path ends in.
pub fn path_id<'a>(path: &UsePath<'a>) -> Id<'a>
    ensures { result ≡ the_path path.now }
{
    match path {
        UsePath::Id(id) => *id,
        UsePath::Package { name, .. } => *name,
    }
}

/// Whether two sides are one.
pub fn is_same_side(a: WorldSide, b: WorldSide) -> bool
    ensures { result ≡ same_side a b }
{
    match a {
        WorldSide::Imported => matches!(b, WorldSide::Imported),
        WorldSide::Exported => matches!(b, WorldSide::Exported),
    }
}
