//! Functions.

use wit_types::{Docs, Stability, Type, TypeId};
use wit_values::{Rare, Row, Span, Text};

/// A parameter. Its span is the name's; that of `self` is the function's.
#[derive(Debug, Clone, PartialEq, Eq)]
pub struct Param {
    pub name: Text,
    pub ty: Type,
    pub span: Span,
}

impl Drop for Param {
    fn drop(self) {
        let Param {
            name: _,
            ty: _,
            span: _,
        } = self;
    }
}

/// A function of an interface, a world or a resource.
#[derive(Debug, PartialEq, Eq)]
pub struct Function {
    /// The name with the marks of its kind, as `[method]r.f`.
    pub name: Text,
    pub kind: FunctionKind,
    /// The parameters in order, `self` among them.
    pub params: Row<Param>,
    pub result: Option<Type>,
    pub docs: Docs,
    pub stability: Stability,
    /// The name's place.
    pub span: Span,
    pub external_id: Rare<Text>,
}

impl Drop for Function {
    fn drop(self) {
        let Function {
            name: _,
            kind: _,
            params: _,
            result: _,
            docs: _,
            stability: _,
            span: _,
            external_id: _,
        } = self;
    }
}

/// What a function is, and of which resource.
#[derive(Debug, Clone, Copy, PartialEq, Eq)]
pub enum FunctionKind {
    Freestanding,
    AsyncFreestanding,
    Getter,
    Setter,
    Method(TypeId),
    AsyncMethod(TypeId),
    MethodGetter(TypeId),
    MethodSetter(TypeId),
    Static(TypeId),
    AsyncStatic(TypeId),
    StaticGetter(TypeId),
    StaticSetter(TypeId),
    Constructor(TypeId),
}
