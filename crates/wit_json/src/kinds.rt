//! What a type is.
ghost use Rattle.std.specs.Prelude.{◌≡◌, ◌∷◌, [], OnOk, codes, map};
ghost use Rattle.wit_types.specs.declared.types.TypeDefKind.TheVariants as kind;
ghost use Rattle.wit_json.specs.ValueTokens.{Adds, AddsMembers};
ghost use Rattle.wit_json.specs.declared.member_words.Word.TheVariants as w;
ghost use Rattle.wit_json.specs.Values.{at, list, number_json, tagged};
ghost use Rattle.wit_json.specs.Kinds.{case_json, case_members, counted_json, enum_case_json, enum_case_members, field_json, field_members, flag_json, flag_members, handle_json, kind_json, optional_type, outcome_json, outcome_members, pair_json, parts_json, type_json};

use crate::lists::{AsJson, write_list};
use crate::member_words::Word;
use crate::members::{open, push_key, push_text, write_number};
use crate::metadata::{push_docs, push_span};
use crate::output::Output;
use std::alloc::AllocError;
use wit_types::{Case, EnumCase, Field, Flag, Handle, Type, TypeDefKind};

impl AsJson for Type {
    ghost json = { type_json };

    fn write(&self, out: &mut Output) -> Result<(), AllocError> {
        match self {
            Type::Bool => out.string("bool"),
            Type::U8 => out.string("u8"),
            Type::U16 => out.string("u16"),
            Type::U32 => out.string("u32"),
            Type::U64 => out.string("u64"),
            Type::S8 => out.string("s8"),
            Type::S16 => out.string("s16"),
            Type::S32 => out.string("s32"),
            Type::S64 => out.string("s64"),
            Type::F32 => out.string("f32"),
            Type::F64 => out.string("f64"),
            Type::Char => out.string("char"),
            Type::String => out.string("string"),
            Type::ErrorContext => out.string("error-context"),
            Type::Id(id) => write_number(out, id.index()),
        }
    }
}

/// A type, or null.
fn write_optional(out: &mut Output, ty: Option<Type>) -> Result<(), AllocError>
    ensures { OnOk result (Adds out.old out.new (optional_type ty)) }
{
    match ty {
        Some(ty) => ty.write(out),
        None => out.null(),
    }
}

fn push_type(out: &mut Output, name: Word, ty: Type) -> Result<(), AllocError>
    ensures { OnOk result (AddsMembers out.old out.new (at name (type_json ty) ∷ [])) }
{
    push_key(out, name)?;
    ty.write(out)
}

fn push_optional(out: &mut Output, name: Word, ty: Option<Type>) -> Result<(), AllocError>
    ensures { OnOk result (AddsMembers out.old out.new (at name (optional_type ty) ∷ [])) }
{
    push_key(out, name)?;
    write_optional(out, ty)
}

fn push_field(out: &mut Output, field: &Field) -> Result<(), AllocError>
    ensures { OnOk result (AddsMembers out.old out.new (field_members field.now)) }
{
    push_text(out, Word::Name, field.name.as_str())?;
    push_type(out, Word::Type_, field.ty)?;
    push_docs(out, &field.docs)?;
    push_span(out, Word::Span, field.span)
}

impl AsJson for Field {
    ghost json = { field_json };

    #[tactic(auto, using(crate::proofs::Closing::fields_closed))]
    fn write(&self, out: &mut Output) -> Result<(), AllocError> {
        out.begin_object()?;
        push_field(out, self)?;
        out.end_object()
    }
}

fn push_flag(out: &mut Output, flag: &Flag) -> Result<(), AllocError>
    ensures { OnOk result (AddsMembers out.old out.new (flag_members flag.now)) }
{
    push_text(out, Word::Name, flag.name.as_str())?;
    push_docs(out, &flag.docs)?;
    push_span(out, Word::Span, flag.span)
}

impl AsJson for Flag {
    ghost json = { flag_json };

    #[tactic(auto, using(crate::proofs::Closing::fields_closed))]
    fn write(&self, out: &mut Output) -> Result<(), AllocError> {
        out.begin_object()?;
        push_flag(out, self)?;
        out.end_object()
    }
}

fn push_case(out: &mut Output, case: &Case) -> Result<(), AllocError>
    ensures { OnOk result (AddsMembers out.old out.new (case_members case.now)) }
{
    push_text(out, Word::Name, case.name.as_str())?;
    push_optional(out, Word::Type_, case.ty)?;
    push_docs(out, &case.docs)?;
    push_span(out, Word::Span, case.span)
}

impl AsJson for Case {
    ghost json = { case_json };

    #[tactic(auto, using(crate::proofs::Closing::fields_closed))]
    fn write(&self, out: &mut Output) -> Result<(), AllocError> {
        out.begin_object()?;
        push_case(out, self)?;
        out.end_object()
    }
}

fn push_enum_case(out: &mut Output, case: &EnumCase) -> Result<(), AllocError>
    ensures { OnOk result (AddsMembers out.old out.new (enum_case_members case.now)) }
{
    push_text(out, Word::Name, case.name.as_str())?;
    push_docs(out, &case.docs)?;
    push_span(out, Word::Span, case.span)
}

impl AsJson for EnumCase {
    ghost json = { enum_case_json };

    #[tactic(auto, using(crate::proofs::Closing::fields_closed))]
    fn write(&self, out: &mut Output) -> Result<(), AllocError> {
        out.begin_object()?;
        push_enum_case(out, self)?;
        out.end_object()
    }
}

/// An object with one member, an id.
pub fn write_tagged(out: &mut Output, tag: Word, number: usize) -> Result<(), AllocError>
    ensures { OnOk result (Adds out.old out.new (tagged tag (number_json number))) }
{
    open(out, tag)?;
    write_number(out, number)?;
    out.end_object()
}

fn write_handle(out: &mut Output, handle: Handle) -> Result<(), AllocError>
    ensures { OnOk result (Adds out.old out.new (handle_json handle)) }
{
    match handle {
        Handle::Own(resource) => write_tagged(out, Word::Own, resource.index()),
        Handle::Borrow(resource) => write_tagged(out, Word::Borrow, resource.index()),
    }
}

fn write_any_handle(out: &mut Output, handle: Handle) -> Result<(), AllocError>
    ensures { OnOk result (Adds out.old out.new (kind_json (kind.Handle handle))) }
{
    open(out, Word::Handle)?;
    write_handle(out, handle)?;
    out.end_object()
}

/// An object with one member, a list.
fn write_named_list<T: AsJson>(out: &mut Output, name: Word, items: &[T]) -> Result<(), AllocError>
    ensures { OnOk result (Adds out.old out.new (tagged name (list (map T.json items.now)))) }
{
    open(out, name)?;
    write_list(out, items)?;
    out.end_object()
}

/// An object with one member, which is an object with one list.
fn write_parts<T: AsJson>(
    out: &mut Output,
    tag: Word,
    name: Word,
    items: &[T],
) -> Result<(), AllocError>
    ensures { OnOk result (Adds out.old out.new (parts_json tag name (map T.json items.now))) }
{
    open(out, tag)?;
    write_named_list(out, name, items)?;
    out.end_object()
}

fn write_one(out: &mut Output, tag: Word, ty: Type) -> Result<(), AllocError>
    ensures { OnOk result (Adds out.old out.new (tagged tag (type_json ty))) }
{
    open(out, tag)?;
    ty.write(out)?;
    out.end_object()
}

fn write_perhaps(out: &mut Output, tag: Word, ty: Option<Type>) -> Result<(), AllocError>
    ensures { OnOk result (Adds out.old out.new (tagged tag (optional_type ty))) }
{
    open(out, tag)?;
    write_optional(out, ty)?;
    out.end_object()
}

fn push_outcome(out: &mut Output, ok: Option<Type>, err: Option<Type>) -> Result<(), AllocError>
    ensures { OnOk result (AddsMembers out.old out.new (outcome_members ok err)) }
{
    push_optional(out, Word::Ok_, ok)?;
    push_optional(out, Word::Err_, err)
}

#[tactic(auto, using(crate::proofs::Closing::fields_closed))]
fn write_outcome(out: &mut Output, ok: Option<Type>, err: Option<Type>) -> Result<(), AllocError>
    ensures { OnOk result (Adds out.old out.new (outcome_json ok err)) }
{
    out.begin_object()?;
    push_outcome(out, ok, err)?;
    out.end_object()
}

fn write_result(out: &mut Output, ok: Option<Type>, err: Option<Type>) -> Result<(), AllocError>
    ensures { OnOk result (Adds out.old out.new (tagged w.Result_ (outcome_json ok err))) }
{
    open(out, Word::Result_)?;
    write_outcome(out, ok, err)?;
    out.end_object()
}

fn write_pair(out: &mut Output, key: Type, value: Type) -> Result<(), AllocError>
    ensures { OnOk result (Adds out.old out.new (pair_json key value)) }
{
    out.begin_array()?;
    key.write(out)?;
    value.write(out)?;
    out.end_array()
}

fn write_map(out: &mut Output, key: Type, value: Type) -> Result<(), AllocError>
    ensures { OnOk result (Adds out.old out.new (kind_json (kind.Map key value))) }
{
    open(out, Word::Map_)?;
    write_pair(out, key, value)?;
    out.end_object()
}

fn write_counted(out: &mut Output, ty: Type, count: u32) -> Result<(), AllocError>
    ensures { OnOk result (Adds out.old out.new (counted_json ty count)) }
{
    out.begin_array()?;
    ty.write(out)?;
    out.number(count as u64)?;
    out.end_array()
}

fn write_fixed(out: &mut Output, ty: Type, count: u32) -> Result<(), AllocError>
    ensures { OnOk result (Adds out.old out.new (kind_json (kind.FixedLengthList ty count))) }
{
    open(out, Word::FixedLengthList)?;
    write_counted(out, ty, count)?;
    out.end_object()
}

impl AsJson for TypeDefKind {
    ghost json = { kind_json };

    fn write(&self, out: &mut Output) -> Result<(), AllocError> {
        match self {
            TypeDefKind::Record(record) => {
                write_parts(out, Word::Record, Word::Fields, record.fields.as_slice())
            }
            TypeDefKind::Resource => out.string("resource"),
            TypeDefKind::Handle(handle) => write_any_handle(out, *handle),
            TypeDefKind::Flags(flags) => {
                write_parts(out, Word::Flags, Word::Flags, flags.flags.as_slice())
            }
            TypeDefKind::Tuple(tuple) => {
                write_parts(out, Word::Tuple, Word::Types, tuple.types.as_slice())
            }
            TypeDefKind::Variant(variant) => {
                write_parts(out, Word::Variant, Word::Cases, variant.cases.as_slice())
            }
            TypeDefKind::Enum(cases) => {
                write_parts(out, Word::Enum_, Word::Cases, cases.cases.as_slice())
            }
            TypeDefKind::Option(ty) => write_one(out, Word::Option_, *ty),
            TypeDefKind::Result(outcome) => write_result(out, outcome.ok, outcome.err),
            TypeDefKind::List(ty) => write_one(out, Word::List_, *ty),
            TypeDefKind::Map(key, value) => write_map(out, *key, *value),
            TypeDefKind::FixedLengthList(ty, count) => write_fixed(out, *ty, *count),
            TypeDefKind::Future(ty) => write_perhaps(out, Word::Future, *ty),
            TypeDefKind::Stream(ty) => write_perhaps(out, Word::Stream, *ty),
            TypeDefKind::Type_(ty) => write_one(out, Word::Type_, *ty),
            TypeDefKind::Unknown => out.string("unknown"),
        }
    }
}
