//! What a type is, in one line of a listing.
ghost use Rattle.std.specs.Prelude.{◌≡◌, ◌++◌, OnOk, codes, string_bytes};
ghost use Rattle.std.specs.List.{flat_map};
ghost use Rattle.wit_types.specs.declared.types.TypeDefKind.TheVariants as kind;
ghost use Rattle.wit_listing.specs.ListingTexts.{Adds, optional_text};
ghost use Rattle.wit_listing.specs.Kinds.{case_text, enum_case_text, field_text, flag_text, handle_text, item_text, kind_text};

use crate::small_texts::{push_numbered, push_optional, push_type};
use std::alloc::AllocError;
use wit_types::{Case, EnumCase, Field, Flag, Handle, Type, TypeDefKind};

fn push_fields(text: &mut String, fields: &[Field]) -> Result<(), AllocError>
    ensures { OnOk result (Adds text.old text.new (flat_map field_text fields.now)) }
{
    for field in fields {
        text.push(' ')?;
        text.push_str(field.name.as_str())?;
        text.push(':')?;
        push_type(text, field.ty)?;
    }
    Ok(())
}

fn push_flags(text: &mut String, flags: &[Flag]) -> Result<(), AllocError>
    ensures { OnOk result (Adds text.old text.new (flat_map flag_text flags.now)) }
{
    for flag in flags {
        text.push(' ')?;
        text.push_str(flag.name.as_str())?;
    }
    Ok(())
}

fn push_items(text: &mut String, types: &[Type]) -> Result<(), AllocError>
    ensures { OnOk result (Adds text.old text.new (flat_map item_text types.now)) }
{
    for ty in types {
        text.push(' ')?;
        push_type(text, *ty)?;
    }
    Ok(())
}

fn push_case(text: &mut String, case: &Case) -> Result<(), AllocError>
    ensures { OnOk result (Adds text.old text.new (case_text case.now)) }
{
    text.push(' ')?;
    text.push_str(case.name.as_str())?;
    match case.ty {
        Some(ty) => {
            text.push(':')?;
            push_type(text, ty)
        }
        None => Ok(()),
    }
}

fn push_cases(text: &mut String, cases: &[Case]) -> Result<(), AllocError>
    ensures { OnOk result (Adds text.old text.new (flat_map case_text cases.now)) }
{
    for case in cases {
        push_case(text, case)?;
    }
    Ok(())
}

fn push_enum_cases(text: &mut String, cases: &[EnumCase]) -> Result<(), AllocError>
    ensures { OnOk result (Adds text.old text.new (flat_map enum_case_text cases.now)) }
{
    for case in cases {
        text.push(' ')?;
        text.push_str(case.name.as_str())?;
    }
    Ok(())
}

fn push_handle(text: &mut String, handle: Handle) -> Result<(), AllocError>
    ensures { OnOk result (Adds text.old text.new (codes " = " ++ handle_text handle)) }
{
    match handle {
        Handle::Own(resource) => push_numbered(text, " = own #", resource.index()),
        Handle::Borrow(resource) => push_numbered(text, " = borrow #", resource.index()),
    }
}

/// A word, a blank and a type.
fn push_one(text: &mut String, word: &str, ty: Type) -> Result<(), AllocError>
    ensures { OnOk result (Adds text.old text.new (word.now ++ item_text ty)) }
{
    text.push_str(word)?;
    text.push(' ')?;
    push_type(text, ty)
}

/// A word with a blank, and a type, or `_` where there is none.
fn push_perhaps(text: &mut String, word: &str, ty: Option<Type>) -> Result<(), AllocError>
    ensures { OnOk result (Adds text.old text.new (word.now ++ optional_text ty)) }
{
    text.push_str(word)?;
    push_optional(text, ty)
}

/// What a result is, after a sign of equality.
fn push_outcome(text: &mut String, ok: Option<Type>, err: Option<Type>) -> Result<(), AllocError>
    ensures { OnOk result (Adds text.old text.new (codes " = " ++ kind_text (kind.Result (record { ok = ok; err = err })))) }
{
    push_perhaps(text, " = result ", ok)?;
    push_perhaps(text, " ", err)
}

/// What a map is, after a sign of equality.
fn push_map(text: &mut String, key: Type, value: Type) -> Result<(), AllocError>
    ensures { OnOk result (Adds text.old text.new (codes " = " ++ kind_text (kind.Map key value))) }
{
    push_one(text, " = map", key)?;
    text.push(' ')?;
    push_type(text, value)
}

/// What a list of fixed length is, after a sign of equality.
fn push_fixed(text: &mut String, ty: Type, count: u32) -> Result<(), AllocError>
    ensures { OnOk result (Adds text.old text.new (codes " = " ++ kind_text (kind.FixedLengthList ty count))) }
{
    push_one(text, " = fixed", ty)?;
    write!(text, " {count}")
}

/// What a type is, after a sign of equality, its parts after single blanks.
pub fn push_kind(text: &mut String, kind: &TypeDefKind) -> Result<(), AllocError>
    ensures { OnOk result (Adds text.old text.new (codes " = " ++ kind_text kind.now)) }
{
    match kind {
        TypeDefKind::Record(record) => {
            text.push_str(" = record")?;
            push_fields(text, record.fields.as_slice())
        }
        TypeDefKind::Resource => text.push_str(" = resource"),
        TypeDefKind::Handle(handle) => push_handle(text, *handle),
        TypeDefKind::Flags(flags) => {
            text.push_str(" = flags")?;
            push_flags(text, flags.flags.as_slice())
        }
        TypeDefKind::Tuple(tuple) => {
            text.push_str(" = tuple")?;
            push_items(text, tuple.types.as_slice())
        }
        TypeDefKind::Variant(variant) => {
            text.push_str(" = variant")?;
            push_cases(text, variant.cases.as_slice())
        }
        TypeDefKind::Enum(enumeration) => {
            text.push_str(" = enum")?;
            push_enum_cases(text, enumeration.cases.as_slice())
        }
        TypeDefKind::Option(ty) => push_one(text, " = option", *ty),
        TypeDefKind::Result(outcome) => push_outcome(text, outcome.ok, outcome.err),
        TypeDefKind::List(ty) => push_one(text, " = list", *ty),
        TypeDefKind::Map(key, value) => push_map(text, *key, *value),
        TypeDefKind::FixedLengthList(ty, count) => push_fixed(text, *ty, *count),
        TypeDefKind::Future(ty) => push_perhaps(text, " = future ", *ty),
        TypeDefKind::Stream(ty) => push_perhaps(text, " = stream ", *ty),
        TypeDefKind::Type_(ty) => push_one(text, " = alias", *ty),
        TypeDefKind::Unknown => text.push_str(" = unknown"),
    }
}
