//! Packages as data: types, functions, interfaces and worlds.
//!
//! These are in arenas and refer to one another by ids. Texts, lists and maps are small types that
//! contracts see as lists.

/// How functions are called and exported.
pub use wit_functions::{AbiVariant, LiftLowerAbi, Mangling, ManglingAndAbi, ManglingFault};
/// Functions.
pub use wit_functions::{
    Function, FunctionKind, FunctionMap, Param, ParamResultTypes, place_setters_after_getters,
    reaches_unknown,
};
/// Tables that find unnamed types by what they are.
pub use wit_intern::{InternKey, InternReply, InternStep, InternTable, intern_run};
/// Interfaces, worlds and packages.
pub use wit_model::{
    Arenas, AstItem, ForeignItems, IncludeName, Interface, UnresolvedPackage, World, WorldInclude,
    WorldItem, WorldKey, get_name, world_item_func,
};
/// Names of packages.
pub use wit_package_names::PackageName;
/// Ids and arenas.
pub use wit_types::{
    Arena, ArenaEntries, Id, InterfaceId, InterfacePlace, PackageId, PackagePlace, TypeId,
    TypePlace, WorldId, WorldPlace,
};
/// Types, and what they are made of.
pub use wit_types::{
    Case, Enum, EnumCase, Field, Flag, Flags, FlagsRepr, Handle, Int, Record, Result_, Tuple, Type,
    TypeDef, TypeDefKind, TypeOwner, Types, Variant, discriminant_type, is_backward, is_same_kind,
};
/// Docs, stabilities, and spans that move together.
pub use wit_types::{Docs, HasSpans, Stability};
/// Accessors, spans and versions.
pub use wit_values::{AccessorKind, BuildText, PreText, Release, Span};
/// Texts, lists, maps, and values that few have.
pub use wit_maps::{Table, TextTable};
pub use wit_values::{Rare, Row, Text};
/// Iterators over maps.
pub use wit_maps::{Entries, Keys, TextEntries, TextKeys, Values};

/// The arena of interfaces.
pub type Interfaces = Arena<Interface, InterfacePlace>;

/// The arena of worlds.
pub type Worlds = Arena<World, WorldPlace>;
