//! A package that a caller makes, and keys of worlds.

use crate::answers::push_answer;
use std::alloc::{AllocError, Global};
use tulfjak::UnresolvedPackage;
use tulfjak::package::{Arena, Arenas, Docs, ForeignItems, PackageName, Span, Text, WorldKey};
use tulfjak::resolve::laws;

/// A package with nothing in it.
fn bare(alloc: Global, name: PackageName) -> UnresolvedPackage {
    UnresolvedPackage::new(
        name,
        Arenas {
            types: Arena::new(alloc),
            interfaces: Arena::new(alloc),
            worlds: Arena::new(alloc),
        },
        Docs::default(),
        Span { start: 3, end: 5 },
        ForeignItems::none(alloc),
    )
}

/// Calls each law, which is there for proofs and does nothing when it runs.
fn know(package: &UnresolvedPackage) {
    laws::functions_have_marks(package);
    laws::ids_are_within(package);
    laws::ids_point_backward(package);
    laws::packages_are_faithful(package);
    laws::splitting();
    laws::one_package();
    laws::pushes_agree();
}

/// Adds a package that has nothing.
fn push_package(text: &mut String, package: &UnresolvedPackage) -> Result<(), AllocError> {
    know(package);
    let spans = (package.package_name_span(), package.unknown_type_spans());
    push_answer(text, "UnresolvedPackage::new", &spans)?;
    let answers = (package.types.is_empty(), package.foreign_deps.is_empty());
    push_answer(text, "UnresolvedPackage::new", &answers)
}

/// Adds the name that a key is.
fn push_key(alloc: Global, text: &mut String) -> Result<(), AllocError> {
    let key = WorldKey::Name(Text::from_str(alloc, "f")?);
    push_answer(text, "WorldKey::unwrap_name", &key.unwrap_name())
}

/// Adds what calls on a package of a caller's own return.
pub fn push_bare(alloc: Global, text: &mut String, name: &PackageName) -> Result<(), AllocError> {
    push_key(alloc, text)?;
    push_package(text, &bare(alloc, name.clone()?))
}
