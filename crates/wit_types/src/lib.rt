//! The types of a resolved package: ids and arenas, types and what they are made of, docs,
//! stabilities, and values that hold spans.
//!
//! Types, interfaces and worlds are in arenas and refer to one another by ids. Spans are
//! half-open ranges of bytes in the sources.
#![tactic(auto)]

pub mod arena;
pub mod backward;
mod clones;
pub mod docs;
pub mod entries;
pub mod equality;
pub mod ids;
pub mod int;
pub mod kind_word;
pub mod laws;
pub mod spans;
pub mod stability;
pub mod type_slots;
pub mod types;

pub use arena::{Arena, Id};
pub use backward::is_backward;
pub use docs::Docs;
pub use entries::ArenaEntries;
pub use equality::is_same_kind;
pub use ids::{
    InterfaceId, InterfacePlace, PackageId, PackagePlace, TypeId, TypePlace, WorldId, WorldPlace,
};
pub use int::{FlagsRepr, Int, discriminant_type};
pub use spans::HasSpans;
pub use stability::Stability;
pub use types::{
    Case, Enum, EnumCase, Field, Flag, Flags, Handle, Record, Result_, Tuple, Type, TypeDef,
    TypeDefKind, TypeOwner, Types, Variant,
};
