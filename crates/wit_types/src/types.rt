//! Types, and what they are made of.

use crate::arena::Arena;
use crate::docs::Docs;
use crate::ids::{InterfaceId, TypeId, TypePlace, WorldId};
use crate::stability::Stability;
use wit_values::{Rare, Row, Span, Text};

/// A type as it is referred to: a primitive, or an entry of the arena of types.
///
/// Types are ordered as the variants are here, entries by their places.
#[derive(Debug, Clone, Copy, PartialEq, Eq, PartialOrd, Ord, Hash)]
pub enum Type {
    Bool,
    U8,
    U16,
    U32,
    U64,
    S8,
    S16,
    S32,
    S64,
    F32,
    F64,
    Char,
    String,
    ErrorContext,
    Id(TypeId),
}

/// An entry of the arena of types.
#[derive(Debug, PartialEq, Eq)]
pub struct TypeDef {
    /// The name, unless the type is inside another.
    pub name: Option<Text>,
    pub kind: TypeDefKind,
    pub owner: TypeOwner,
    pub docs: Docs,
    pub stability: Stability,
    /// The name's place; of an unnamed type, that of its first writing.
    pub span: Span,
    pub external_id: Rare<Text>,
}

impl Drop for TypeDef {
    fn drop(self) {
        let TypeDef {
            name: _,
            kind: _,
            owner: _,
            docs: _,
            stability: _,
            span: _,
            external_id: _,
        } = self;
    }
}

/// The arena of types.
pub type Types = Arena<TypeDef, TypePlace>;

/// What a type is.
#[derive(Debug, Clone, PartialEq, Eq, Hash)]
pub enum TypeDefKind {
    Record(Record),
    Resource,
    Handle(Handle),
    Flags(Flags),
    Tuple(Tuple),
    Variant(Variant),
    Enum(Enum),
    Option(Type),
    Result(Result_),
    List(Type),
    /// The type of the keys, and that of the values.
    Map(Type, Type),
    /// The type of the items, and how many there are.
    FixedLengthList(Type, u32),
    Future(Option<Type>),
    Stream(Option<Type>),
    /// Another name of a type.
    Type_(Type),
    /// A type of another package, which is not known here.
    Unknown,
}

impl Drop for TypeDefKind {
    fn drop(self) {
        match self {
            TypeDefKind::Record(_) => {}
            TypeDefKind::Resource => {}
            TypeDefKind::Handle(_) => {}
            TypeDefKind::Flags(_) => {}
            TypeDefKind::Tuple(_) => {}
            TypeDefKind::Variant(_) => {}
            TypeDefKind::Enum(_) => {}
            TypeDefKind::Option(_) => {}
            TypeDefKind::Result(_) => {}
            TypeDefKind::List(_) => {}
            TypeDefKind::Map(_, _) => {}
            TypeDefKind::FixedLengthList(_, _) => {}
            TypeDefKind::Future(_) => {}
            TypeDefKind::Stream(_) => {}
            TypeDefKind::Type_(_) => {}
            TypeDefKind::Unknown => {}
        }
    }
}

/// Where a type's name is.
#[derive(Debug, Clone, Copy, PartialEq, Eq, Hash)]
pub enum TypeOwner {
    World(WorldId),
    Interface(InterfaceId),
    /// The type has no name.
    None,
}

/// A handle of a resource.
#[derive(Debug, Clone, Copy, PartialEq, Eq, Hash)]
pub enum Handle {
    Own(TypeId),
    Borrow(TypeId),
}

/// Values side by side, each with a name.
#[derive(Debug, Clone, PartialEq, Eq, Hash, Drop)]
pub struct Record {
    pub fields: Row<Field>,
}

/// A field of a record. Its span is the name's.
#[derive(Debug, Clone, PartialEq, Eq, Hash)]
pub struct Field {
    pub name: Text,
    pub ty: Type,
    pub docs: Docs,
    pub span: Span,
}

impl Drop for Field {
    fn drop(self) {
        let Field {
            name: _,
            ty: _,
            docs: _,
            span: _,
        } = self;
    }
}

/// Switches, each with a name.
#[derive(Debug, Clone, PartialEq, Eq, Hash, Drop)]
pub struct Flags {
    pub flags: Row<Flag>,
}

/// A switch. Its span is the name's.
#[derive(Debug, Clone, PartialEq, Eq, Hash, Drop)]
pub struct Flag {
    pub name: Text,
    pub docs: Docs,
    pub span: Span,
}

/// Values side by side.
#[derive(Debug, Clone, PartialEq, Eq, Hash, Drop)]
pub struct Tuple {
    pub types: Row<Type>,
}

/// One of several cases, each with a name and perhaps a value.
#[derive(Debug, Clone, PartialEq, Eq, Hash, Drop)]
pub struct Variant {
    pub cases: Row<Case>,
}

/// A case of a variant. Its span is the name's.
#[derive(Debug, Clone, PartialEq, Eq, Hash)]
pub struct Case {
    pub name: Text,
    pub ty: Option<Type>,
    pub docs: Docs,
    pub span: Span,
}

impl Drop for Case {
    fn drop(self) {
        let Case {
            name: _,
            ty: _,
            docs: _,
            span: _,
        } = self;
    }
}

/// One of several names.
#[derive(Debug, Clone, PartialEq, Eq, Hash, Drop)]
pub struct Enum {
    pub cases: Row<EnumCase>,
}

/// A name of an enum. Its span is the name's.
#[derive(Debug, Clone, PartialEq, Eq, Hash, Drop)]
pub struct EnumCase {
    pub name: Text,
    pub docs: Docs,
    pub span: Span,
}

/// A value, or an error in its place.
#[derive(Debug, Clone, PartialEq, Eq, Hash, Drop)]
pub struct Result_ {
    pub ok: Option<Type>,
    pub err: Option<Type>,
}
