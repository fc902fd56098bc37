//! Types of a package, those that hold spans among them, and their equality.
use crate::shared::{first_id, place, row};
use std::alloc::{AllocError, Global};
use wit_model::laws::equality::{
    is_same_case, is_same_enum, is_same_enum_case, is_same_field, is_same_flag, is_same_flags,
    is_same_handle, is_same_outcome, is_same_record, is_same_tuple, is_same_type_def,
    is_same_variant,
};
use wit_types::{
    Case, Docs, Enum, EnumCase, Field, Flag, Flags, Handle, Record, Result_, Stability, Tuple,
    Type, TypeDef, TypeDefKind, TypeOwner, Types, Variant,
};
use wit_values::{Rare, Span, Text};

// Puts a type of this kind after others.
fn add_type(types: &mut Types, kind: TypeDefKind, span: Span) -> Result<(), AllocError> {
    place(
        types,
        TypeDef {
            name: None,
            kind,
            owner: TypeOwner::None,
            docs: Docs::default(),
            stability: Stability::Unknown,
            span,
            external_id: Rare::none(),
        },
    )
}

fn add_record(alloc: Global, types: &mut Types, span: Span) -> Result<(), AllocError> {
    let name = Text::from_str(alloc, "n")?;
    let docs = Docs::default();
    let ty = Type::U8;
    let fields = row(
        alloc,
        Field {
            name,
            ty,
            docs,
            span,
        },
    )?;
    add_type(types, TypeDefKind::Record(Record { fields }), span)
}

fn add_flags(alloc: Global, types: &mut Types, span: Span) -> Result<(), AllocError> {
    let name = Text::from_str(alloc, "n")?;
    let docs = Docs::default();
    let flags = row(alloc, Flag { name, docs, span })?;
    add_type(types, TypeDefKind::Flags(Flags { flags }), span)
}

fn add_variant(alloc: Global, types: &mut Types, span: Span) -> Result<(), AllocError> {
    let name = Text::from_str(alloc, "n")?;
    let docs = Docs::default();
    let ty = Some(Type::Bool);
    let cases = row(
        alloc,
        Case {
            name,
            ty,
            docs,
            span,
        },
    )?;
    add_type(types, TypeDefKind::Variant(Variant { cases }), span)
}

fn add_enum(alloc: Global, types: &mut Types, span: Span) -> Result<(), AllocError> {
    let name = Text::from_str(alloc, "n")?;
    let docs = Docs::default();
    let cases = row(alloc, EnumCase { name, docs, span })?;
    add_type(types, TypeDefKind::Enum(Enum { cases }), span)
}

fn add_others(alloc: Global, types: &mut Types, span: Span) -> Result<(), AllocError> {
    let tuple = row(alloc, Type::Char)?;
    add_type(types, TypeDefKind::Tuple(Tuple { types: tuple }), span)?;
    let outcome = Result_ {
        ok: Some(Type::F32),
        err: None,
    };
    add_type(types, TypeDefKind::Result(outcome), span)?;
    let resource = first_id(alloc);
    add_type(types, TypeDefKind::Handle(Handle::Own(resource)), span)
}

/// Puts types that hold spans, and others, after others.
pub fn add_types(alloc: Global, types: &mut Types, span: Span) -> Result<(), AllocError> {
    add_record(alloc, types, span)?;
    add_flags(alloc, types, span)?;
    add_variant(alloc, types, span)?;
    add_enum(alloc, types, span)?;
    add_others(alloc, types, span)
}

fn is_part_itself(kind: &TypeDefKind) -> bool {
    match kind {
        TypeDefKind::Record(record) => match record.fields.as_slice() {
            [field] => is_same_field(field, field) && is_same_record(record, record),
            _ => false,
        },
        TypeDefKind::Flags(flags) => match flags.flags.as_slice() {
            [flag] => is_same_flag(flag, flag) && is_same_flags(flags, flags),
            _ => false,
        },
        TypeDefKind::Variant(variant) => match variant.cases.as_slice() {
            [case] => is_same_case(case, case) && is_same_variant(variant, variant),
            _ => false,
        },
        TypeDefKind::Enum(choice) => match choice.cases.as_slice() {
            [case] => is_same_enum_case(case, case) && is_same_enum(choice, choice),
            _ => false,
        },
        TypeDefKind::Tuple(tuple) => is_same_tuple(tuple, tuple),
        TypeDefKind::Result(outcome) => is_same_outcome(outcome, outcome),
        TypeDefKind::Handle(handle) => is_same_handle(*handle, *handle),
        _ => false,
    }
}

/// Whether each type and its parts are the same as themselves.
pub fn are_types_themselves(types: &Types) -> bool {
    for ty in types.iter() {
        if !is_part_itself(&ty.kind) || !is_same_type_def(ty, ty) {
            return false;
        }
    }
    types.len() > 0
}
