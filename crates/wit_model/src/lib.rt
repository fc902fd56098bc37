//! The data of a resolved package: types, functions, interfaces and worlds.
//!
//! Types, interfaces and worlds are in arenas and refer to one another by ids. Spans are
//! half-open ranges of bytes in the sources. What is here of types is that of `wit_types`, what is
//! here of functions that of `wit_functions`, and names of packages are those of `wit_package_names`.
#![tactic(auto)]

pub mod ast_item;
mod clones;
pub mod foreign;
pub mod interface;
pub mod laws;
pub mod spans;
pub mod unresolved;
pub mod world;

pub use ast_item::AstItem;
pub use foreign::ForeignItems;
pub use interface::Interface;
pub use unresolved::{Arenas, UnresolvedPackage};
pub use wit_functions::{
    AbiVariant, Function, FunctionKind, FunctionMap, LiftLowerAbi, Mangling, ManglingAndAbi,
    ManglingFault, Param, ParamResultTypes, abi, function, function_kind, function_name, futures,
    place_setters_after_getters, reaches_unknown, setters, signature,
};
pub use wit_package_names::PackageName;
pub use wit_types::{
    Arena, Case, Docs, Enum, EnumCase, Field, Flag, Flags, FlagsRepr, Handle, HasSpans, Id, Int,
    InterfaceId, InterfacePlace, PackageId, PackagePlace, Record, Result_, Stability, Tuple, Type,
    TypeDef, TypeDefKind, TypeId, TypeOwner, TypePlace, Types, Variant, WorldId, WorldPlace, arena,
    backward, discriminant_type, docs, equality, ids, int, is_backward, is_same_kind, kind_word,
    stability, types,
};
pub use world::{IncludeName, World, WorldInclude, WorldItem, WorldKey, get_name, world_item_func};
