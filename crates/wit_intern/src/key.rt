//! What an unnamed type is found by.
ghost use Rattle.std.specs.Prelude.{◌≡◌, IfOk};
ghost use Rattle.wit_intern.specs.TypeKeys.{key_of};

use std::alloc::AllocError;
use wit_types::{Handle, Result_, Tuple, Type, TypeDefKind, TypeId};
use wit_values::Row;

/// What an unnamed type is: its form and its parts.
///
/// Keys are ordered as the variants are here, and then by their parts.
#[derive(Debug, Clone, PartialEq, Eq, PartialOrd, Ord, Hash)]
pub enum InternKey {
    /// A borrowed handle of a resource.
    Borrow(TypeId),
    Tuple(Row<Type>),
    List(Type),
    /// The type of the keys, and that of the values.
    Map(Type, Type),
    /// The type of the items, and how many there are.
    FixedLengthList(Type, u32),
    Option(Type),
    /// The type of the value, and that of the error.
    Result(Option<Type>, Option<Type>),
    Future(Option<Type>),
    Stream(Option<Type>),
}

impl Drop for InternKey {
    fn drop(self) {
        match self {
            InternKey::Borrow(_) => {}
            InternKey::Tuple(_) => {}
            InternKey::List(_) => {}
            InternKey::Map(_, _) => {}
            InternKey::FixedLengthList(_, _) => {}
            InternKey::Option(_) => {}
            InternKey::Result(_, _) => {}
            InternKey::Future(_) => {}
            InternKey::Stream(_) => {}
        }
    }
}

impl InternKey {
    /// The key of a kind; `None` for the kinds that no unnamed type has.
    ///
    /// The error is a failed allocation.
    pub fn of(kind: &TypeDefKind) -> Result<Option<InternKey>, AllocError>
        ensures { IfOk result (λ key. key ≡ key_of kind.now) }
    {
        let key = match kind {
            TypeDefKind::Handle(Handle::Borrow(id)) => InternKey::Borrow(*id),
            TypeDefKind::Tuple(tuple) => return Ok(Some(InternKey::Tuple(tuple.types.clone()?))),
            TypeDefKind::List(ty) => InternKey::List(*ty),
            TypeDefKind::Map(key, value) => InternKey::Map(*key, *value),
            TypeDefKind::FixedLengthList(ty, count) => InternKey::FixedLengthList(*ty, *count),
            TypeDefKind::Option(ty) => InternKey::Option(*ty),
            TypeDefKind::Result(outcome) => InternKey::Result(outcome.ok, outcome.err),
            TypeDefKind::Future(ty) => InternKey::Future(*ty),
            TypeDefKind::Stream(ty) => InternKey::Stream(*ty),
            TypeDefKind::Record(_)
            | TypeDefKind::Resource
            | TypeDefKind::Handle(Handle::Own(_))
            | TypeDefKind::Flags(_)
            | TypeDefKind::Variant(_)
            | TypeDefKind::Enum(_)
            | TypeDefKind::Type_(_)
            | TypeDefKind::Unknown => return Ok(None),
        };
        Ok(Some(key))
    }
}
