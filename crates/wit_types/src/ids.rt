//! The ids of a package's parts.

use crate::arena::Id;

/// Marks the ids of types.
pub struct TypePlace;

/// Marks the ids of interfaces.
pub struct InterfacePlace;

/// Marks the ids of worlds.
pub struct WorldPlace;

/// Marks the ids of packages.
pub struct PackagePlace;

/// The place of a type in its arena.
pub type TypeId = Id<TypePlace>;

/// The place of an interface in its arena.
pub type InterfaceId = Id<InterfacePlace>;

/// The place of a world in its arena.
pub type WorldId = Id<WorldPlace>;

/// The place of a package among packages that are joined.
pub type PackageId = Id<PackagePlace>;
