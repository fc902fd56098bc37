//! Bodies of definitions, as kinds of entries.
ghost use Rattle.std.specs.Prelude.{◌≡◌, map, IfOk, is_some};
ghost use Rattle.std.specs.List.{filter_map};
ghost use Rattle.std.specs.Option.{option_to_list};
ghost use Rattle.wit_type_tree.specs.TypeParts.{field_types, case_types};
ghost use Rattle.wit_type_tree.specs.declared.types.TypeBody.TheVariants.{Plain};
ghost use Rattle.wit_syntax.specs.Shape.{member};
ghost use Rattle.wit_entries.specs.ResolvedForms.{ResolvesTypes};
ghost use Rattle.wit_definitions.specs.Bodies.{ResolvesBody, case_member, enum_case_member, field_member, flag_member};

use std::alloc::{AllocError, Global};
use wit_entries::entries::Entries;
use wit_entries::names::{TypeScope, find_resource};
use wit_entries::scope::Required;
use wit_entries::types::{named_kind, read, resolve_type};
use wit_notes::docs;
use wit_rules::rules::{check_enum, check_flags, check_record, check_variant};
use wit_tree::{ParseResult, Span, tree};
use wit_types::{
    Case, Enum, EnumCase, Field, Flag, Flags, Handle, Record, Stability, Type, TypeDefKind, Variant,
};
use wit_values::{Row, Text};

/// A field of this type.
fn field(alloc: Global, field: &tree::Field<'_>, ty: Type) -> Result<Field, AllocError>
    ensures member { IfOk result (λ r. field_member r ≡ member field.now.docs field.now.name) }
    ensures typed { IfOk result (λ r. r.ty ≡ ty) }
{
    Ok(Field {
        name: Text::from_str(alloc, field.name.name)?,
        ty,
        docs: docs(alloc, &field.docs)?,
        span: field.name.span,
    })
}

/// The fields of a record.
fn resolve_fields(
    alloc: Global,
    types: &mut Entries,
    scope: &TypeScope<'_, '_, '_>,
    required: &mut Vec<Required>,
    given: &Stability,
    fields: &[tree::Field<'_>],
) -> ParseResult<Row<Field>>
    ensures members { IfOk result (λ made. map field_member made ≡ map (λ f. member f.docs f.name) fields.now) }
    ensures resolves { ResolvesTypes scope.now given.now types.old types.new required.old required.new (field_types fields.now) (map (λ f. f.ty)) result }
{
    let mut resolved = Vec::with_capacity(alloc, fields.len())?;
    for written in fields {
        let ty = resolve_type(alloc, types, scope, required, given, &written.ty)?;
        resolved.push(field(alloc, written, ty)?)?;
    }
    Ok(Row::from(resolved))
}

/// A flag.
fn flag(alloc: Global, flag: &tree::Flag<'_>) -> Result<Flag, AllocError>
    ensures { IfOk result (λ r. flag_member r ≡ member flag.now.docs flag.now.name) }
{
    Ok(Flag {
        name: Text::from_str(alloc, flag.name.name)?,
        docs: docs(alloc, &flag.docs)?,
        span: flag.name.span,
    })
}

/// Flags, in their order.
fn flags(alloc: Global, flags: &[tree::Flag<'_>]) -> Result<Row<Flag>, AllocError>
    ensures { IfOk result (λ r. map flag_member r ≡ map (λ x. member x.docs x.name) flags.now) }
{
    let mut made = Vec::with_capacity(alloc, flags.len())?;
    for written in flags {
        made.push(flag(alloc, written)?)?;
    }
    Ok(Row::from(made))
}

/// A case of a variant, with the type of what it holds.
fn case(alloc: Global, case: &tree::Case<'_>, ty: Option<Type>) -> Result<Case, AllocError>
    ensures member { IfOk result (λ r. case_member r ≡ (member case.now.docs case.now.name, is_some ty)) }
    ensures typed { IfOk result (λ r. r.ty ≡ ty) }
{
    Ok(Case {
        name: Text::from_str(alloc, case.name.name)?,
        ty,
        docs: docs(alloc, &case.docs)?,
        span: case.name.span,
    })
}

/// A case of a variant.
fn resolve_case(
    alloc: Global,
    types: &mut Entries,
    scope: &TypeScope<'_, '_, '_>,
    required: &mut Vec<Required>,
    given: &Stability,
    written: &tree::Case<'_>,
) -> ParseResult<Case>
    ensures member { IfOk result (λ made. case_member made ≡ (member written.now.docs written.now.name, is_some written.now.ty)) }
    ensures resolves { ResolvesTypes scope.now given.now types.old types.new required.old required.new (option_to_list written.now.ty) (λ c. option_to_list c.ty) result }
{
    match &written.ty {
        Some(ty) => {
            let ty = resolve_type(alloc, types, scope, required, given, ty)?;
            Ok(case(alloc, written, Some(ty))?)
        }
        None => Ok(case(alloc, written, None)?),
    }
}

/// The cases of a variant.
fn resolve_cases(
    alloc: Global,
    types: &mut Entries,
    scope: &TypeScope<'_, '_, '_>,
    required: &mut Vec<Required>,
    given: &Stability,
    cases: &[tree::Case<'_>],
) -> ParseResult<Row<Case>>
    ensures members { IfOk result (λ made. map case_member made ≡ map (λ c. (member c.docs c.name, is_some c.ty)) cases.now) }
    ensures resolves { ResolvesTypes scope.now given.now types.old types.new required.old required.new (case_types cases.now) (filter_map (λ c. c.ty)) result }
{
    let mut resolved = Vec::with_capacity(alloc, cases.len())?;
    for written in cases {
        let case = resolve_case(alloc, types, scope, required, given, written)?;
        resolved.push(case)?;
    }
    Ok(Row::from(resolved))
}

/// A case of an enum.
fn enum_case(alloc: Global, case: &tree::EnumCase<'_>) -> Result<EnumCase, AllocError>
    ensures { IfOk result (λ r. enum_case_member r ≡ member case.now.docs case.now.name) }
{
    Ok(EnumCase {
        name: Text::from_str(alloc, case.name.name)?,
        docs: docs(alloc, &case.docs)?,
        span: case.name.span,
    })
}

/// The cases of an enum, in their order.
fn enum_cases(alloc: Global, cases: &[tree::EnumCase<'_>]) -> Result<Row<EnumCase>, AllocError>
    ensures { IfOk result (λ r. map enum_case_member r ≡ map (λ x. member x.docs x.name) cases.now) }
{
    let mut made = Vec::with_capacity(alloc, cases.len())?;
    for written in cases {
        made.push(enum_case(alloc, written)?)?;
    }
    Ok(Row::from(made))
}

/// The kind of a definition that is a type: a resource that is handed over is a handle there.
fn resolve_plain(
    alloc: Global,
    types: &mut Entries,
    scope: &TypeScope<'_, '_, '_>,
    required: &mut Vec<Required>,
    given: &Stability,
    ty: &tree::Type<'_>,
) -> ParseResult<TypeDefKind>
    ensures { ResolvesBody scope.now given.now types.old types.new required.old required.new (Plain ty.now) result }
{
    if let tree::Type::Own(_, id) = ty {
        let resource = find_resource(alloc, types, scope, required, *id)?;
        return Ok(TypeDefKind::Handle(Handle::Own(resource)));
    }
    let reading = read(alloc, types, scope, required, given, ty)?;
    Ok(named_kind(reading))
}

/// The kind of a definition.
///
/// A refusal is E15, E27, a broken rule of types, fields, flags or cases, or a failed allocation.
pub fn resolve_body(
    alloc: Global,
    types: &mut Entries,
    scope: &TypeScope<'_, '_, '_>,
    required: &mut Vec<Required>,
    given: &Stability,
    body: &tree::TypeBody<'_>,
) -> ParseResult<TypeDefKind>
    ensures { ResolvesBody scope.now given.now types.old types.new required.old required.new body.now result }
{
    match body {
        tree::TypeBody::Record { span, fields } => {
            check_record(alloc, *span, fields)?;
            let fields = resolve_fields(alloc, types, scope, required, given, fields)?;
            Ok(TypeDefKind::Record(Record { fields }))
        }
        tree::TypeBody::Flags {
            span,
            flags: written,
        } => {
            check_flags(alloc, *span, written)?;
            let flags = flags(alloc, written)?;
            Ok(TypeDefKind::Flags(Flags { flags }))
        }
        tree::TypeBody::Variant { span, cases } => {
            check_variant(alloc, *span, cases)?;
            let cases = resolve_cases(alloc, types, scope, required, given, cases)?;
            Ok(TypeDefKind::Variant(Variant { cases }))
        }
        tree::TypeBody::Enum { span, cases } => {
            check_enum(alloc, *span, cases)?;
            let cases = enum_cases(alloc, cases)?;
            Ok(TypeDefKind::Enum(Enum { cases }))
        }
        tree::TypeBody::Resource { .. } => Ok(TypeDefKind::Resource),
        tree::TypeBody::Plain(ty) => {
            let kind = resolve_plain(alloc, types, scope, required, given, ty)?;
            Ok(kind)
        }
    }
}
