//! What a function's kind says.
ghost use Rattle.std.specs.Prelude.{◌≡◌};
ghost use Rattle.std.specs.Option.{option_copied_mut};
ghost use Rattle.std.specs.Borrow.{sem};
ghost use Rattle.wit_functions.specs.FunctionKinds.{LendsResource, accessor_of, is_async, resource_of};

use crate::function::FunctionKind;
use wit_types::TypeId;
use wit_values::AccessorKind;

impl FunctionKind {
    /// Whether calls of it may wait.
    pub fn is_async(&self) -> bool
        ensures { result ≡ is_async self.now }
    {
        match self {
            FunctionKind::AsyncFreestanding
            | FunctionKind::AsyncMethod(_)
            | FunctionKind::AsyncStatic(_) => true,
            _ => false,
        }
    }

    /// Which accessor it is, if it is one.
    pub fn accessor(&self) -> Option<AccessorKind>
        ensures { result ≡ accessor_of self.now }
    {
        match self {
            FunctionKind::Getter | FunctionKind::MethodGetter(_) | FunctionKind::StaticGetter(_) =>
                { Some(AccessorKind::Getter) }
            FunctionKind::Setter | FunctionKind::MethodSetter(_) | FunctionKind::StaticSetter(_) =>
                { Some(AccessorKind::Setter) }
            _ => None,
        }
    }

    /// The resource that it belongs to, if it belongs to one.
    pub fn resource(&self) -> Option<TypeId>
        ensures { result ≡ resource_of self.now }
    {
        match self {
            FunctionKind::Freestanding
            | FunctionKind::AsyncFreestanding
            | FunctionKind::Getter
            | FunctionKind::Setter => None,
            FunctionKind::Method(id)
            | FunctionKind::AsyncMethod(id)
            | FunctionKind::MethodGetter(id)
            | FunctionKind::MethodSetter(id)
            | FunctionKind::Static(id)
            | FunctionKind::AsyncStatic(id)
            | FunctionKind::StaticGetter(id)
            | FunctionKind::StaticSetter(id)
            | FunctionKind::Constructor(id) => Some(*id),
        }
    }

    /// The resource that it belongs to, to be written; nothing else of the kind changes.
    pub fn resource_mut(&mut self) -> Option<&mut TypeId>
        ensures* writes_back { sem 𝓛 (LendsResource self.entry result) }
        ensures value { option_copied_mut result ≡ resource_of self.old }
    {
        match self {
            FunctionKind::Freestanding => None,
            FunctionKind::AsyncFreestanding => None,
            FunctionKind::Getter => None,
            FunctionKind::Setter => None,
            FunctionKind::Method(id) => Some(id),
            FunctionKind::AsyncMethod(id) => Some(id),
            FunctionKind::MethodGetter(id) => Some(id),
            FunctionKind::MethodSetter(id) => Some(id),
            FunctionKind::Static(id) => Some(id),
            FunctionKind::AsyncStatic(id) => Some(id),
            FunctionKind::StaticGetter(id) => Some(id),
            FunctionKind::StaticSetter(id) => Some(id),
            FunctionKind::Constructor(id) => Some(id),
        }
    }
}
