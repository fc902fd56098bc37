//! Definitions of types, functions, and the types that they write.
ghost use Rattle.std.specs.Prelude.{◌≡◌};
ghost use Rattle.std.specs.Option.{option_map};

use crate::leaves::{Attribute, Docs, Id};
use wit_values::Span;

/// The definition of a type.
#[derive(Debug, Drop)]
pub struct TypeDef<'a> {
    pub docs: Docs<'a>,
    pub attributes: Vec<Attribute<'a>>,
    pub name: Id<'a>,
    pub body: TypeBody<'a>,
}

/// What a definition says. A span is that of the definition's name.
#[derive(Debug)]
pub enum TypeBody<'a> {
    Record {
        span: Span,
        fields: Vec<Field<'a>>,
    },
    Flags {
        span: Span,
        flags: Vec<Flag<'a>>,
    },
    Variant {
        span: Span,
        cases: Vec<Case<'a>>,
    },
    Enum {
        span: Span,
        cases: Vec<EnumCase<'a>>,
    },
    /// A resource, with the functions that belong to it.
    Resource {
        funcs: Vec<ResourceFunc<'a>>,
    },
    /// Another word for a type.
    Plain(Type<'a>),
}

impl Drop for TypeBody<'_> {
    fn drop(self) {
        match self {
            TypeBody::Record { span: _, fields: _ } => {}
            TypeBody::Flags { span: _, flags: _ } => {}
            TypeBody::Variant { span: _, cases: _ } => {}
            TypeBody::Enum { span: _, cases: _ } => {}
            TypeBody::Resource { funcs: _ } => {}
            TypeBody::Plain(_) => {}
        }
    }
}

/// A field of a record.
#[derive(Debug, Drop)]
pub struct Field<'a> {
    pub docs: Docs<'a>,
    pub name: Id<'a>,
    pub ty: Type<'a>,
}

/// A flag, which is there or not.
#[derive(Debug, Drop)]
pub struct Flag<'a> {
    pub docs: Docs<'a>,
    pub name: Id<'a>,
}

/// A case of a variant, with the type of what it holds, if it holds something.
#[derive(Debug, Drop)]
pub struct Case<'a> {
    pub docs: Docs<'a>,
    pub name: Id<'a>,
    pub ty: Option<Type<'a>>,
}

/// A case of an enum.
#[derive(Debug, Drop)]
pub struct EnumCase<'a> {
    pub docs: Docs<'a>,
    pub name: Id<'a>,
}

/// A function that belongs to a resource.
#[derive(Debug)]
pub enum ResourceFunc<'a> {
    /// Of one value of the resource.
    Method(NamedFunc<'a>),
    /// Of the resource alone.
    Static(NamedFunc<'a>),
    /// Makes a value of the resource. The span is that of the word `constructor`.
    Constructor {
        docs: Docs<'a>,
        attributes: Vec<Attribute<'a>>,
        span: Span,
        params: Vec<Param<'a>>,
        result: Option<Type<'a>>,
    },
}

impl Drop for ResourceFunc<'_> {
    fn drop(self) {
        match self {
            ResourceFunc::Method(_) => {}
            ResourceFunc::Static(_) => {}
            ResourceFunc::Constructor {
                docs: _,
                attributes: _,
                span: _,
                params: _,
                result: _,
            } => {}
        }
    }
}

/// A function and its name.
#[derive(Debug)]
pub struct NamedFunc<'a> {
    pub docs: Docs<'a>,
    pub attributes: Vec<Attribute<'a>>,
    pub name: Id<'a>,
    pub func: Func<'a>,
}

impl Drop for NamedFunc<'_> {
    fn drop(self) {
        let NamedFunc {
            docs: _,
            attributes: _,
            name: _,
            func: _,
        } = self;
    }
}

/// A function: its form, its parameters, and the type of its result, where there is one.
#[derive(Debug)]
pub struct Func<'a> {
    /// That of the word `func`, `get` or `set`.
    pub span: Span,
    pub form: FuncForm,
    pub params: Vec<Param<'a>>,
    pub result: Option<Type<'a>>,
}

impl Drop for Func<'_> {
    fn drop(self) {
        let Func {
            span: _,
            form: _,
            params: _,
            result: _,
        } = self;
    }
}

/// The form of a function.
#[derive(Clone, Copy, Debug, PartialEq, Eq)]
pub enum FuncForm {
    /// `func`
    Plain,
    /// `async func`
    Async,
    /// `get`
    Getter,
    /// `set`
    Setter,
}

/// A parameter of a function.
#[derive(Debug, Drop)]
pub struct Param<'a> {
    pub name: Id<'a>,
    pub ty: Type<'a>,
}

/// A type that is a word of the language by itself.
#[derive(Clone, Copy, Debug, PartialEq, Eq)]
pub enum Primitive {
    Bool,
    U8,
    U16,
    U32,
    U64,
    S8,
    S16,
    S32,
    S64,
    F32,
    F64,
    Char,
    String,
    ErrorContext,
}

/// A written type, with the span of its first word.
#[cycle(written)]
#[derive(Debug, Drop)]
pub enum Type<'a> {
    Primitive(Span, Primitive),
    Name(Id<'a>),
    List(Span, Box<Type<'a>>),
    /// A list of a fixed length: the type of its items, and how many there are.
    FixedLengthList(Span, Box<Type<'a>>, u32),
    /// The type of the keys, and that of the values.
    Map(Span, Box<Type<'a>>, Box<Type<'a>>),
    Option(Span, Box<Type<'a>>),
    Result(Span, ResultTypes<'a>),
    Tuple(Span, Vec<Type<'a>>),
    /// The type of the value, where there is one.
    Future(Span, Option<Box<Type<'a>>>),
    /// The type of the items, where they have one.
    Stream(Span, Option<Box<Type<'a>>>),
    /// A resource that is handed over.
    Own(Span, Id<'a>),
    /// A resource that is lent.
    Borrow(Span, Id<'a>),
}

/// The types that a result is written with: that of the value and that of the error, where there are
/// any.
#[cycle(written)]
#[derive(Debug, Drop)]
pub enum ResultTypes<'a> {
    Neither,
    Ok(Box<Type<'a>>),
    Err(Box<Type<'a>>),
    Both(Box<Type<'a>>, Box<Type<'a>>),
}

impl<'a> ResultTypes<'a> {
    ghost use Rattle.wit_type_tree.specs.TypeParts.{ok_type};

    /// The type of the value, where there is one.
    pub fn ok(&self) -> Option<&Type<'a>>
        ensures { option_map (λ t. t.now) result ≡ ok_type self.now }
    {
        match self {
            ResultTypes::Ok(ok) | ResultTypes::Both(ok, _) => Some(ok),
            ResultTypes::Neither | ResultTypes::Err(_) => None,
        }
    }
}
