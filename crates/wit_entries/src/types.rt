//! Written types, as types of the arena.
ghost use Rattle.std.specs.Prelude.{◌≡◌, ◌∷◌, [], IfOk, is_some};
ghost use Rattle.std.specs.Option.{option_to_list};
ghost use Rattle.wit_type_tree.specs.TypeParts.{boxed_types, err_type, ok_type, result_types};
ghost use Rattle.wit_types.specs.declared.types.TypeDefKind.TheVariants.{Result};
ghost use Rattle.wit_syntax.specs.Node.{primitive_type as the_primitive_type};
ghost use Rattle.wit_syntax.specs.Shape.{shape_of};
ghost use Rattle.wit_arena.specs.Kind.{kind_of};
ghost use Rattle.wit_entries.specs.ResolvedForms.{IsLeaf, IsList, Reads, ResolvesTypes, named_kind as the_named_kind};

use crate::entries::Entries;
use crate::names::{TypeScope, find_name, find_resource};
use crate::scope::Required;
use std::alloc::Global;
use wit_rules::rules::{check_key, check_tuple};
use wit_tree::{ParseResult, Span, tree};
use wit_types::{Handle, Result_, Stability, Tuple, Type, TypeDefKind};
use wit_values::Row;

/// A written type over its resolved parts.
#[derive(Drop)]
pub enum Reading {
    /// A primitive, or what a name means.
    Leaf(Type),
    /// The kind of a form, which is written at the span.
    Form(TypeDefKind, Span),
}

/// The type of the package that a primitive is.
fn primitive_type(primitive: tree::Primitive) -> Type
    ensures { result ≡ the_primitive_type primitive }
{
    match primitive {
        tree::Primitive::Bool => Type::Bool,
        tree::Primitive::U8 => Type::U8,
        tree::Primitive::U16 => Type::U16,
        tree::Primitive::U32 => Type::U32,
        tree::Primitive::U64 => Type::U64,
        tree::Primitive::S8 => Type::S8,
        tree::Primitive::S16 => Type::S16,
        tree::Primitive::S32 => Type::S32,
        tree::Primitive::S64 => Type::S64,
        tree::Primitive::F32 => Type::F32,
        tree::Primitive::F64 => Type::F64,
        tree::Primitive::Char => Type::Char,
        tree::Primitive::String => Type::String,
        tree::Primitive::ErrorContext => Type::ErrorContext,
    }
}

/// A written type over its parts, which are resolved first.
#[cycle(types)]
pub fn read(
    alloc: Global,
    types: &mut Entries,
    scope: &TypeScope<'_, '_, '_>,
    required: &mut Vec<Required>,
    given: &Stability,
    ty: &tree::Type<'_>,
) -> ParseResult<Reading>
    ensures { Reads scope.now given.now types.old types.new required.old required.new ty.now result }
{
    if let tree::Type::Primitive(_, primitive) = ty {
        return Ok(Reading::Leaf(primitive_type(*primitive)));
    }
    if let tree::Type::Name(id) = ty {
        let found = find_name(alloc, scope, *id)?;
        return Ok(Reading::Leaf(Type::Id(found)));
    }
    if let tree::Type::Own(_, id) = ty {
        let resource = find_resource(alloc, types, scope, required, *id)?;
        return Ok(Reading::Leaf(Type::Id(resource)));
    }
    if let tree::Type::List(span, item) = ty {
        let item = resolve_type(alloc, types, scope, required, given, item)?;
        return Ok(Reading::Form(TypeDefKind::List(item), *span));
    }
    read_form(alloc, types, scope, required, given, ty)
}

/// A form but a list, and no resource that is handed over. It is by itself since each of its calls has room for
/// a refusal: a list, the form that is nested most, needs room for its own alone.
#[cycle(types)]
#[inline(never)]
fn read_form(
    alloc: Global,
    types: &mut Entries,
    scope: &TypeScope<'_, '_, '_>,
    required: &mut Vec<Required>,
    given: &Stability,
    ty: &tree::Type<'_>,
) -> ParseResult<Reading>
    requires form { IsLeaf (shape_of ty.now) → ⊥ }
    requires unlisted { IsList ty.now → ⊥ }
    ensures { Reads scope.now given.now types.old types.new required.old required.new ty.now result }
{
    match ty {
        tree::Type::FixedLengthList(span, item, size) => {
            let item = resolve_type(alloc, types, scope, required, given, item)?;
            Ok(Reading::Form(TypeDefKind::FixedLengthList(item, *size), *span))
        }
        tree::Type::Map(span, key, value) => {
            let key_type = resolve_type(alloc, types, scope, required, given, key)?;
            let value_type = resolve_type(alloc, types, scope, required, given, value)?;
            check_key(alloc, *span, key)?;
            Ok(Reading::Form(TypeDefKind::Map(key_type, value_type), *span))
        }
        tree::Type::Option(span, value) => {
            let value = resolve_type(alloc, types, scope, required, given, value)?;
            Ok(Reading::Form(TypeDefKind::Option(value), *span))
        }
        tree::Type::Result(span, parts) => {
            let outcome = resolve_result(alloc, types, scope, required, given, parts)?;
            Ok(Reading::Form(TypeDefKind::Result(outcome), *span))
        }
        tree::Type::Tuple(span, parts) => {
            check_tuple(alloc, *span, parts)?;
            let types = resolve_types(alloc, types, scope, required, given, parts)?;
            Ok(Reading::Form(TypeDefKind::Tuple(Tuple { types }), *span))
        }
        tree::Type::Future(span, value) => {
            let value = resolve_optional(alloc, types, scope, required, given, value)?;
            Ok(Reading::Form(TypeDefKind::Future(value), *span))
        }
        tree::Type::Stream(span, item) => {
            let item = resolve_optional(alloc, types, scope, required, given, item)?;
            Ok(Reading::Form(TypeDefKind::Stream(item), *span))
        }
        tree::Type::Borrow(span, id) => {
            let resource = find_resource(alloc, types, scope, required, *id)?;
            Ok(Reading::Form(TypeDefKind::Handle(Handle::Borrow(resource)), *span))
        }
        _ => unreachable!(),
    }
}

/// The types that those of a result mean, that of the value first.
#[cycle(types)]
fn resolve_result(
    alloc: Global,
    types: &mut Entries,
    scope: &TypeScope<'_, '_, '_>,
    required: &mut Vec<Required>,
    given: &Stability,
    parts: &tree::ResultTypes<'_>,
) -> ParseResult<Result_>
    ensures there { IfOk result (λ r. (is_some r.ok ≡ is_some (ok_type parts.now)) × (is_some r.err ≡ is_some (err_type parts.now))) }
    ensures resolves { ResolvesTypes scope.now given.now types.old types.new required.old required.new (result_types parts.now) (λ r. (kind_of (Result r)).1) result }
{
    match parts {
        tree::ResultTypes::Neither => Ok(Result_ {
            ok: None,
            err: None,
        }),
        tree::ResultTypes::Ok(ok) => {
            let ok = resolve_type(alloc, types, scope, required, given, ok)?;
            Ok(Result_ {
                ok: Some(ok),
                err: None,
            })
        }
        tree::ResultTypes::Err(err) => {
            let err = resolve_type(alloc, types, scope, required, given, err)?;
            Ok(Result_ {
                ok: None,
                err: Some(err),
            })
        }
        tree::ResultTypes::Both(ok, err) => {
            let ok = resolve_type(alloc, types, scope, required, given, ok)?;
            let err = resolve_type(alloc, types, scope, required, given, err)?;
            let (ok, err) = (Some(ok), Some(err));
            Ok(Result_ { ok, err })
        }
    }
}

/// The type that a written one means, where there is one.
#[cycle(types)]
fn resolve_optional(
    alloc: Global,
    types: &mut Entries,
    scope: &TypeScope<'_, '_, '_>,
    required: &mut Vec<Required>,
    given: &Stability,
    ty: &Option<Box<tree::Type<'_>>>,
) -> ParseResult<Option<Type>>
    ensures there { IfOk result (λ o. is_some o ≡ is_some ty.now) }
    ensures resolves { ResolvesTypes scope.now given.now types.old types.new required.old required.new (boxed_types ty.now) option_to_list result }
{
    match ty {
        Some(ty) => {
            let found = resolve_type(alloc, types, scope, required, given, ty)?;
            Ok(Some(found))
        }
        None => Ok(None),
    }
}

/// The types that written ones mean, in their order.
#[cycle(types)]
fn resolve_types(
    alloc: Global,
    types: &mut Entries,
    scope: &TypeScope<'_, '_, '_>,
    required: &mut Vec<Required>,
    given: &Stability,
    parts: &[tree::Type<'_>],
) -> ParseResult<Row<Type>>
    ensures { ResolvesTypes scope.now given.now types.old types.new required.old required.new parts.now (λ r. r) result }
{
    let mut resolved = Vec::with_capacity(alloc, parts.len())?;
    for part in parts {
        let ty = resolve_type(alloc, types, scope, required, given, part)?;
        resolved.push(ty)?;
    }
    Ok(Row::from(resolved))
}

/// The type that a written one means.
///
/// A refusal is E15, or in a signature E28 or E29, E22, E26 or E27 at a type in it, or a failed allocation.
#[cycle(types)]
pub fn resolve_type(
    alloc: Global,
    types: &mut Entries,
    scope: &TypeScope<'_, '_, '_>,
    required: &mut Vec<Required>,
    given: &Stability,
    ty: &tree::Type<'_>,
) -> ParseResult<Type>
    ensures { ResolvesTypes scope.now given.now types.old types.new required.old required.new (ty.now ∷ []) (λ t. t ∷ []) result }
{
    let reading = read(alloc, types, scope, required, given, ty)?;
    match reading {
        Reading::Leaf(ty) => Ok(ty),
        Reading::Form(kind, span) => {
            let id = types.intern(kind, given, span)?;
            Ok(Type::Id(id))
        }
    }
}

/// The kind that this is under a name by itself.
pub fn named_kind(reading: Reading) -> TypeDefKind
    ensures { result ≡ the_named_kind reading }
{
    match reading {
        Reading::Leaf(ty) => TypeDefKind::Type_(ty),
        Reading::Form(kind, _) => kind,
    }
}
