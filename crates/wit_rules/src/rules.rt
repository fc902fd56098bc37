//! The rules of types, fields, flags and cases.
ghost use Rattle.std.specs.Prelude.{◌≡◌, IfOk, codes, map, slice_get};
ghost use Rattle.wit_type_tree.specs.declared.types.Flag.{Flag as TheFlag};
ghost use Rattle.wit_first.specs.First.{Finds};
ghost use Rattle.wit_first.specs.KeyFaults.{is_key, key_fault};
ghost use Rattle.wit_first.specs.ListFaults.{empty_fault, flags_fault, members_fault};
ghost use Rattle.wit_syntax.specs.Fault.{fault};
ghost use Rattle.std.specs.Option.{option_map};

use std::alloc::{AllocError, Global};
use wit_refusals::check_unique_names;
use wit_refusals::refusal::refuse;
use wit_tree::tree::{Case, EnumCase, Field, Flag, Id, Primitive, Type};
use wit_tree::{ParseResult, Span};

/// How many flags there are at most.
const MOST_FLAGS: usize = 32;

/// What is said of a map whose key is no type for keys.
const INVALID_KEY: &str =
    "invalid map key type: map keys must be bool, u8, u16, u32, u64, s8, s16, s32, s64, char, or string";

/// Whether the keys of a map can be of a type, as it is written.
fn is_key(ty: &Type<'_>) -> bool
    ensures { result ≡ is_key ty.now }
{
    match ty {
        Type::Primitive(_, primitive) => !matches!(
            primitive,
            Primitive::F32 | Primitive::F64 | Primitive::ErrorContext
        ),
        _ => false,
    }
}

/// Refuses a map whose keys are of a type that is written as none for keys (E26).
pub fn check_key(alloc: Global, span: Span, key: &Type<'_>) -> ParseResult<()>
    ensures { Finds (key_fault key.now span) result }
{
    if is_key(key) {
        return Ok(());
    }
    Err(refuse(alloc, 26, span, INVALID_KEY))
}

/// Refuses a tuple without types (E22).
pub fn check_tuple(alloc: Global, span: Span, types: &[Type<'_>]) -> ParseResult<()>
    ensures { Finds (empty_fault 22 types.now span) result }
{
    if types.is_empty() {
        return Err(refuse(alloc, 22, span, "empty tuple"));
    }
    Ok(())
}

/// The names of fields.
fn field_names<'a>(alloc: Global, fields: &[Field<'a>]) -> Result<Vec<Id<'a>>, AllocError>
    ensures { IfOk result (λ names. names.items ≡ map (λ f. f.name) fields.now) }
{
    fields.iter().map(|field| field.name).collect(alloc)
}

/// The names of flags.
fn flag_names<'a>(alloc: Global, flags: &[Flag<'a>]) -> Result<Vec<Id<'a>>, AllocError>
    ensures { IfOk result (λ names. names.items ≡ map (λ f. f.name) flags.now) }
{
    flags.iter().map(|flag| flag.name).collect(alloc)
}

/// The names of the cases of a variant.
fn case_names<'a>(alloc: Global, cases: &[Case<'a>]) -> Result<Vec<Id<'a>>, AllocError>
    ensures { IfOk result (λ names. names.items ≡ map (λ c. c.name) cases.now) }
{
    cases.iter().map(|case| case.name).collect(alloc)
}

/// The names of the cases of an enum.
fn enum_case_names<'a>(alloc: Global, cases: &[EnumCase<'a>]) -> Result<Vec<Id<'a>>, AllocError>
    ensures { IfOk result (λ names. names.items ≡ map (λ c. c.name) cases.now) }
{
    cases.iter().map(|case| case.name).collect(alloc)
}

/// Refuses a record without fields (E19), and one with two fields of one name once case is folded (E25).
pub fn check_record(alloc: Global, span: Span, fields: &[Field<'_>]) -> ParseResult<()>
    ensures { Finds (members_fault 19 (codes "field") (λ x. x.name) span fields.now) result }
{
    if fields.is_empty() {
        return Err(refuse(alloc, 19, span, "empty record"));
    }
    let names = field_names(alloc, fields)?;
    check_unique_names(alloc, "field", &names)
}

/// Refuses the thirty-third flag (E21).
fn check_count(alloc: Global, flags: &[Flag<'_>]) -> ParseResult<()>
    ensures { Finds (option_map (λ (flag : TheFlag). fault 21 flag.name.span) (slice_get flags.now 32)) result }
{
    match flags.get(MOST_FLAGS) {
        Some(flag) => Err(refuse(alloc, 21, flag.name.span, "cannot have more than 32 flags")),
        None => Ok(()),
    }
}

/// Refuses flags without a flag (E20), the thirty-third (E21), and two of one name once case is folded (E25).
pub fn check_flags(alloc: Global, span: Span, flags: &[Flag<'_>]) -> ParseResult<()>
    ensures { Finds (flags_fault span flags.now) result }
{
    if flags.is_empty() {
        return Err(refuse(alloc, 20, span, "empty flags"));
    }
    check_count(alloc, flags)?;
    let names = flag_names(alloc, flags)?;
    check_unique_names(alloc, "flag", &names)
}

/// Refuses a variant without cases (E23), and one with two cases of one name once case is folded (E25).
pub fn check_variant(alloc: Global, span: Span, cases: &[Case<'_>]) -> ParseResult<()>
    ensures { Finds (members_fault 23 (codes "case") (λ x. x.name) span cases.now) result }
{
    if cases.is_empty() {
        return Err(refuse(alloc, 23, span, "empty variant"));
    }
    let names = case_names(alloc, cases)?;
    check_unique_names(alloc, "case", &names)
}

/// Refuses an enum without cases (E24), and one with two cases of one name once case is folded (E25).
pub fn check_enum(alloc: Global, span: Span, cases: &[EnumCase<'_>]) -> ParseResult<()>
    ensures { Finds (members_fault 24 (codes "case") (λ x. x.name) span cases.now) result }
{
    if cases.is_empty() {
        return Err(refuse(alloc, 24, span, "empty enum"));
    }
    let names = enum_case_names(alloc, cases)?;
    check_unique_names(alloc, "case", &names)
}
