//! The names that are written in types and in the bodies of definitions.
ghost use Rattle.std.specs.Prelude.{◌≡◌, ◌++◌, IfOk, OnOk};
ghost use Rattle.wit_type_tree.specs.TypeParts.{boxed_types, field_types, case_types, result_types};
ghost use Rattle.wit_syntax.specs.Shape.{shape_of, all_shapes, body_of, words, all_words};

use std::alloc::{AllocError, Global};
use wit_tree::tree::{Case, Field, Id, ResultTypes, Type, TypeBody};

/// Adds the names written in a type.
#[cycle(deps)]
fn collect_deps<'a>(deps: &mut Vec<Id<'a>>, ty: &Type<'a>) -> Result<(), AllocError>
    ensures { OnOk result (deps.new.items ≡ deps.old.items ++ words (shape_of ty.now)) }
{
    match ty {
        Type::Name(id) | Type::Own(_, id) | Type::Borrow(_, id) => deps.push(*id)?,
        Type::List(_, part) | Type::FixedLengthList(_, part, _) | Type::Option(_, part) => {
            collect_deps(deps, part)?
        }
        Type::Map(_, key, value) => {
            collect_deps(deps, key)?;
            collect_deps(deps, value)?;
        }
        Type::Result(_, types) => collect_result_deps(deps, types)?,
        Type::Tuple(_, parts) => collect_all_deps(deps, parts)?,
        Type::Future(_, part) | Type::Stream(_, part) => collect_optional_deps(deps, part)?,
        _ => {}
    }
    Ok(())
}

/// Adds the names written in the types of a result.
#[cycle(deps)]
fn collect_result_deps<'a>(
    deps: &mut Vec<Id<'a>>,
    types: &ResultTypes<'a>,
) -> Result<(), AllocError>
    ensures { OnOk result (deps.new.items ≡ deps.old.items ++ all_words (all_shapes (result_types types.now))) }
{
    match types {
        ResultTypes::Neither => {}
        ResultTypes::Ok(one) | ResultTypes::Err(one) => collect_deps(deps, one)?,
        ResultTypes::Both(ok, err) => {
            collect_deps(deps, ok)?;
            collect_deps(deps, err)?;
        }
    }
    Ok(())
}

/// Adds the names written in a type, where there is one.
#[cycle(deps)]
fn collect_optional_deps<'a>(
    deps: &mut Vec<Id<'a>>,
    ty: &Option<Box<Type<'a>>>,
) -> Result<(), AllocError>
    ensures { OnOk result (deps.new.items ≡ deps.old.items ++ all_words (all_shapes (boxed_types ty.now))) }
{
    match ty {
        Some(ty) => collect_deps(deps, ty)?,
        None => {}
    }
    Ok(())
}

/// Adds the names written in types.
#[cycle(deps)]
fn collect_all_deps<'a>(deps: &mut Vec<Id<'a>>, types: &[Type<'a>]) -> Result<(), AllocError>
    ensures { OnOk result (deps.new.items ≡ deps.old.items ++ all_words (all_shapes types.now)) }
{
    for ty in types {
        collect_deps(deps, ty)?;
    }
    Ok(())
}

/// Adds the names written in the types of fields.
fn collect_field_deps<'a>(deps: &mut Vec<Id<'a>>, fields: &[Field<'a>]) -> Result<(), AllocError>
    ensures { OnOk result (deps.new.items ≡ deps.old.items ++ all_words (all_shapes (field_types fields.now))) }
{
    for field in fields {
        collect_deps(deps, &field.ty)?;
    }
    Ok(())
}

/// Adds the names written in the types of cases.
fn collect_case_deps<'a>(deps: &mut Vec<Id<'a>>, cases: &[Case<'a>]) -> Result<(), AllocError>
    ensures { OnOk result (deps.new.items ≡ deps.old.items ++ all_words (all_shapes (case_types cases.now))) }
{
    for case in cases {
        if let Some(ty) = &case.ty {
            collect_deps(deps, ty)?;
        }
    }
    Ok(())
}

/// The names written in the body of a definition, in written order; those in the functions of a
/// resource are none of them.
pub(crate) fn body_deps<'a>(alloc: Global, body: &TypeBody<'a>) -> Result<Vec<Id<'a>>, AllocError>
    ensures { IfOk result (λ deps. deps.items ≡ all_words (body_of body.now).parts) }
{
    let mut deps = Vec::new(alloc);
    match body {
        TypeBody::Record { fields, .. } => collect_field_deps(&mut deps, fields)?,
        TypeBody::Variant { cases, .. } => collect_case_deps(&mut deps, cases)?,
        TypeBody::Plain(ty) => collect_deps(&mut deps, ty)?,
        TypeBody::Flags { .. } | TypeBody::Enum { .. } | TypeBody::Resource { .. } => {}
    }
    Ok(deps)
}
