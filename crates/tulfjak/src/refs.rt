//! Resolved packages, borrowed, with what is known of them: each id is the place of an entry, those of types
//! point backward, and the name of each function has the mark of its kind.

/// Entries of a package.
pub use wit_resolved::{FunctionRef, InterfaceRef, ItemRef, TypeRef, WorldRef};
/// Iterators over entries.
pub use wit_resolved::{FunctionRefs, InterfaceRefs, ItemRefs, NamedTypes, TypeRefs, WorldRefs};
/// Packages.
pub use wit_resolved::{PackageRef, PackageRefs};
