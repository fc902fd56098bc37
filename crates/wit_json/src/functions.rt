//! Functions.
ghost use Rattle.std.specs.Prelude.{◌≡◌, OnOk, codes};
ghost use Rattle.wit_json.specs.ValueTokens.{Adds, AddsMembers};
ghost use Rattle.wit_json.specs.Functions.{function_prefix, function_json, function_kind, function_members, of_resource, param_json, param_members, result_members};

use crate::lists::{AsJson, write_list};
use crate::member_words::Word;
use crate::members::{push_key, push_text, write_number};
use crate::metadata::{push_metadata, push_span};
use crate::output::Output;
use std::alloc::AllocError;
use wit_model::{Function, FunctionKind, Param};
use wit_types::{Type, TypeId};

fn push_param(out: &mut Output, param: &Param) -> Result<(), AllocError>
    ensures { OnOk result (AddsMembers out.old out.new (param_members param.now)) }
{
    push_text(out, Word::Name, param.name.as_str())?;
    push_key(out, Word::Type_)?;
    param.ty.write(out)?;
    push_span(out, Word::Span, param.span)
}

impl AsJson for Param {
    ghost json = { param_json };

    #[tactic(auto, using(crate::proofs::Closing::fields_closed))]
    fn write(&self, out: &mut Output) -> Result<(), AllocError> {
        out.begin_object()?;
        push_param(out, self)?;
        out.end_object()
    }
}

/// A kind with the id of its resource.
fn write_of(out: &mut Output, word: &str, resource: TypeId) -> Result<(), AllocError>
    ensures { OnOk result (Adds out.old out.new (of_resource word.now resource)) }
{
    out.begin_object()?;
    out.key(word)?;
    write_number(out, resource.index())?;
    out.end_object()
}

fn write_kind(out: &mut Output, kind: FunctionKind) -> Result<(), AllocError>
    ensures { OnOk result (Adds out.old out.new (function_kind kind)) }
{
    match kind {
        FunctionKind::Freestanding => out.string("freestanding"),
        FunctionKind::AsyncFreestanding => out.string("async-freestanding"),
        FunctionKind::Getter => out.string("getter"),
        FunctionKind::Setter => out.string("setter"),
        FunctionKind::Method(resource) => write_of(out, "method", resource),
        FunctionKind::AsyncMethod(resource) => write_of(out, "async-method", resource),
        FunctionKind::MethodGetter(resource) => write_of(out, "method-getter", resource),
        FunctionKind::MethodSetter(resource) => write_of(out, "method-setter", resource),
        FunctionKind::Static(resource) => write_of(out, "static", resource),
        FunctionKind::AsyncStatic(resource) => write_of(out, "async-static", resource),
        FunctionKind::StaticGetter(resource) => write_of(out, "static-getter", resource),
        FunctionKind::StaticSetter(resource) => write_of(out, "static-setter", resource),
        FunctionKind::Constructor(resource) => write_of(out, "constructor", resource),
    }
}

fn push_result(out: &mut Output, ty: Option<Type>) -> Result<(), AllocError>
    ensures { OnOk result (AddsMembers out.old out.new (result_members ty)) }
{
    match ty {
        Some(ty) => {
            push_key(out, Word::Result_)?;
            ty.write(out)
        }
        None => Ok(()),
    }
}

fn push_front(out: &mut Output, function: &Function) -> Result<(), AllocError>
    ensures { OnOk result (AddsMembers out.old out.new (function_prefix function.now)) }
{
    push_text(out, Word::Name, function.name.as_str())?;
    push_key(out, Word::Kind)?;
    write_kind(out, function.kind)?;
    push_key(out, Word::Params)?;
    write_list(out, function.params.as_slice())
}

fn push_function(out: &mut Output, function: &Function) -> Result<(), AllocError>
    ensures { OnOk result (AddsMembers out.old out.new (function_members function.now)) }
{
    push_front(out, function)?;
    push_result(out, function.result)?;
    push_metadata(
        out,
        &function.docs,
        &function.stability,
        &function.external_id,
    )?;
    push_span(out, Word::Span, function.span)
}

impl AsJson for Function {
    ghost json = { function_json };

    #[tactic(auto, using(crate::proofs::Closing::fields_closed))]
    fn write(&self, out: &mut Output) -> Result<(), AllocError> {
        out.begin_object()?;
        push_function(out, self)?;
        out.end_object()
    }
}
