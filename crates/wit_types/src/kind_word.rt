//! The words for what a type is.
ghost use Rattle.std.specs.Prelude.{◌≡◌};
ghost use Rattle.wit_types.specs.KindWords.{word_of};

use crate::types::{Handle, TypeDefKind};

impl TypeDefKind {
    /// The word for this kind, as `record`.
    pub fn as_str(&self) -> &'static str
        ensures { result.now ≡ word_of self.now }
    {
        match self {
            TypeDefKind::Record(_) => "record",
            TypeDefKind::Resource => "resource",
            TypeDefKind::Handle(Handle::Own(_)) => "own",
            TypeDefKind::Handle(Handle::Borrow(_)) => "borrow",
            TypeDefKind::Flags(_) => "flags",
            TypeDefKind::Tuple(_) => "tuple",
            TypeDefKind::Variant(_) => "variant",
            TypeDefKind::Enum(_) => "enum",
            TypeDefKind::Option(_) => "option",
            TypeDefKind::Result(_) => "result",
            TypeDefKind::List(_) => "list",
            TypeDefKind::Map(_, _) => "map",
            TypeDefKind::FixedLengthList(_, _) => "fixed-length list",
            TypeDefKind::Future(_) => "future",
            TypeDefKind::Stream(_) => "stream",
            TypeDefKind::Type_(_) => "type",
            TypeDefKind::Unknown => "unknown",
        }
    }
}
