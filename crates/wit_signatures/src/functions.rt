//! Functions over their resolved types.
ghost use Rattle.std.specs.Option.{unwrap_or};
ghost use Rattle.std.specs.Prelude.{◌≡◌, ◌<◌, ◌∷◌, [], List, IfOk, None, Some, length};
ghost use Rattle.wit_types.specs.declared.types.TypeDef.{TypeDef as Entry};
ghost use Rattle.wit_syntax.specs.Function.{self_param as the_self};
ghost use Rattle.wit_first.specs.First.{Finds};
ghost use Rattle.wit_first.specs.FunctionFaults.{getter_fault};
ghost use Rattle.wit_arena.specs.Made.{role_kind};
ghost use Rattle.wit_arena.specs.SourceFunctions.{kinds_of};
ghost use Rattle.wit_arena.specs.Resolving.{env_of};
ghost use Rattle.wit_entries.specs.EntryFaults.{IsExtended};
ghost use Rattle.wit_rules.specs.Signatures.{function_view, owner_of, functions_view, HasOwner, HaveOwners, AreParamsOver, IsResultOver};
ghost use Rattle.wit_signatures.specs.FunctionsOfScope.{AddsAt, AddsResult, FindsFunction, FindsReturn, ResolvesParams};

use crate::signatures::resolve_in_signature;
use std::alloc::{AllocError, Global};
use wit_entries::entries::Entries;
use wit_entries::scope::Required;
use wit_functions::{Function, FunctionKind, Param};
use wit_maps::TextTable;
use wit_notes::metadata_of;
use wit_rules::borrowed::BorrowedFunction;
use wit_rules::function_rules::{
    check_given, check_result, check_returns, refuse_param, repeated_param,
};
use wit_rules::function_scope::FunctionScope;
use wit_tree::tree::{FuncForm, Id, ResourceFunc};
use wit_tree::{ParseResult, Span};
use wit_types::{Handle, Stability, Type, TypeDefKind, TypeId};
use wit_values::{Row, Text};

/// The kind of a function by itself.
fn freestanding(form: FuncForm) -> FunctionKind
    ensures { result ≡ (kinds_of form).freestanding }
{
    match form {
        FuncForm::Plain => FunctionKind::Freestanding,
        FuncForm::Async => FunctionKind::AsyncFreestanding,
        FuncForm::Getter => FunctionKind::Getter,
        FuncForm::Setter => FunctionKind::Setter,
    }
}

/// The kind of a method of the resource at a place.
fn method(form: FuncForm, resource: TypeId) -> FunctionKind
    ensures { result ≡ (kinds_of form).method resource }
{
    match form {
        FuncForm::Plain => FunctionKind::Method(resource),
        FuncForm::Async => FunctionKind::AsyncMethod(resource),
        FuncForm::Getter => FunctionKind::MethodGetter(resource),
        FuncForm::Setter => FunctionKind::MethodSetter(resource),
    }
}

/// The kind of a static function of the resource at a place.
fn static_function(form: FuncForm, resource: TypeId) -> FunctionKind
    ensures { result ≡ (kinds_of form).static resource }
{
    match form {
        FuncForm::Plain => FunctionKind::Static(resource),
        FuncForm::Async => FunctionKind::AsyncStatic(resource),
        FuncForm::Getter => FunctionKind::StaticGetter(resource),
        FuncForm::Setter => FunctionKind::StaticSetter(resource),
    }
}

/// The place of a resource.
fn place_of(names: &TextTable<TypeId>, resource: Id<'_>) -> TypeId
    requires { HasOwner (env_of names.now) (Some resource) }
    ensures { env_of names.now resource.entry.name.now ≡ Some result }
{
    match names.get(resource.name) {
        Some(place) => *place,
        None => unreachable!(),
    }
}

/// The kind of a function.
fn kind_of(names: &TextTable<TypeId>, function: BorrowedFunction<'_, '_>) -> FunctionKind
    requires { HasOwner (env_of names.now) (owner_of (function_view function).role) }
    ensures { result ≡ role_kind (λ of. unwrap_or (env_of names.now of.name.now) 0) (function_view function.entry).role }
{
    match function {
        BorrowedFunction::Free(f) => freestanding(f.func.form),
        BorrowedFunction::Across(_, _, _, _, f) => freestanding(f.form),
        BorrowedFunction::Of(resource, ResourceFunc::Method(f)) => {
            method(f.func.form, place_of(names, resource))
        }
        BorrowedFunction::Of(resource, ResourceFunc::Static(f)) => {
            static_function(f.func.form, place_of(names, resource))
        }
        BorrowedFunction::Of(resource, ResourceFunc::Constructor { .. }) => {
            FunctionKind::Constructor(place_of(names, resource))
        }
    }
}

/// A parameter of this type.
fn param(alloc: Global, name: Id<'_>, ty: Type) -> Result<Param, AllocError>
    ensures { IfOk result (λ p. (p.name ≡ name.entry.name.now) × (p.span ≡ name.entry.span) × (p.ty ≡ ty)) }
{
    Ok(Param {
        name: Text::from_str(alloc, name.name)?,
        ty,
        span: name.span,
    })
}

/// The first parameter of a method: its resource, lent, where the function is.
fn self_param(
    alloc: Global,
    types: &mut Entries,
    names: &TextTable<TypeId>,
    resource: Id<'_>,
    word: Span,
) -> Result<Param, AllocError>
    requires { HasOwner (env_of names.now) (Some resource) }
    ensures param { IfOk result (λ p. AreParamsOver types.old types.new (env_of names.now) (the_self resource.entry word ∷ []) (p ∷ [])) }
    ensures extended { IsExtended types.old types.new }
{
    let borrow = TypeDefKind::Handle(Handle::Borrow(place_of(names, resource)));
    let id = types.intern(borrow, &Stability::Unknown, word)?;
    Ok(Param {
        name: Text::from_str(alloc, "self")?,
        ty: Type::Id(id),
        span: word,
    })
}

/// The parameters that a function is given before its written ones, with room for these.
fn given_params(
    alloc: Global,
    names: &TextTable<TypeId>,
    function: BorrowedFunction<'_, '_>,
    types: &mut Entries,
) -> Result<Vec<Param>, AllocError>
    requires { HasOwner (env_of names.now) (owner_of (function_view function).role) }
    ensures params { IfOk result (λ ps. AreParamsOver types.old types.new (env_of names.now) (function_view function.entry).given ps.items) }
    ensures extended { IsExtended types.old types.new }
{
    let mut params = Vec::with_capacity(alloc, function.param_count())?;
    if let Some(resource) = function.given() {
        params.push(self_param(alloc, types, names, resource, function.word())?)?;
    }
    Ok(params)
}

/// The parameters of the function at a place: those that it is given, and then the written ones. One
/// that an earlier one is, once case is folded, is refused (E38).
fn all_params<'t, 'a>(
    alloc: Global,
    scope: FunctionScope<'_, 't, 'a>,
    types: &mut Entries,
    required: &mut Vec<Required>,
    place: usize,
    function: BorrowedFunction<'t, 'a>,
) -> ParseResult<Row<Param>>
    requires { HasOwner (env_of scope.names.now) (owner_of (function_view function).role) }
    ensures { ResolvesParams scope.entry place types.old types.new required.old required.new (function_view function.entry) result }
{
    let repeated = repeated_param(alloc, function)?;
    let mut params = given_params(alloc, scope.names, function, types)?;
    let all = function.params();
    for written in all {
        if repeated == Some(params.len()) {
            return Err(refuse_param(alloc, written.name));
        }
        let ty = resolve_in_signature(alloc, scope, types, required, place, &written.ty)?;
        params.push(param(alloc, written.name, ty)?)?;
    }
    Ok(Row::from(params))
}

/// The type of the result of a function without a written one: the resource that a constructor makes.
/// A getter is refused (E39).
fn made_result(
    alloc: Global,
    names: &TextTable<TypeId>,
    function: BorrowedFunction<'_, '_>,
) -> ParseResult<Option<Type>>
    requires owner { HasOwner (env_of names.now) (owner_of (function_view function).role) }
    requires none { (function_view function).func.result ≡ None }
    ensures result { IfOk result (λ r. (es : List Entry) → IsResultOver es es (env_of names.now) (function_view function.entry).result r) }
    ensures first { Finds (getter_fault (function_view function.entry).func.form (function_view function.entry).func.span) result }
{
    check_returns(alloc, function)?;
    match function.made() {
        Some(resource) => Ok(Some(Type::Id(place_of(names, resource)))),
        None => Ok(None),
    }
}

/// The type of the result of the function at a place.
fn resolve_result<'t, 'a>(
    alloc: Global,
    scope: FunctionScope<'_, 't, 'a>,
    types: &mut Entries,
    required: &mut Vec<Required>,
    place: usize,
    function: BorrowedFunction<'t, 'a>,
) -> ParseResult<Option<Type>>
    requires { HasOwner (env_of scope.names.now) (owner_of (function_view function).role) }
    ensures adds { IfOk result (AddsResult scope.entry types.old types.new required.old required.new (function_view function.entry)) }
    ensures finds { FindsReturn scope.entry place types.old types.new (function_view function.entry) result }
{
    match function.result() {
        Some(written) => {
            let ty = resolve_in_signature(alloc, scope, types, required, place, written)?;
            check_result(alloc, scope.results, function, written)?;
            Ok(Some(ty))
        }
        None => {
            let made = made_result(alloc, scope.names, function)?;
            Ok(made)
        }
    }
}

/// The function at a place of a scope, with its metadata, over its types, which are added to the arena:
/// those of its parameters and then that of its result.
///
/// A refusal is E30 to E35 at its attributes, E28 or E29 at a name in its signature, E27 at one in a
/// handle, E22 or E26 at a type, E36 or E37 at its parameters, E38 at one of them, E39 to E42 at its
/// result, or a failed allocation.
pub fn resolve_function(
    alloc: Global,
    scope: FunctionScope<'_, '_, '_>,
    types: &mut Entries,
    required: &mut Vec<Required>,
    place: usize,
) -> ParseResult<Function>
    requires place { place < length scope.functions.now }
    requires owners { HaveOwners (env_of scope.names.now) (functions_view scope) }
    ensures adds { IfOk result (AddsAt scope.entry place types.old types.new required.old required.new) }
    ensures finds { FindsFunction scope.entry place types.old types.new result }
{
    let function = scope.functions[place];
    let metadata = metadata_of(alloc, function.docs(), function.attributes())?;
    check_given(alloc, function)?;
    let params = all_params(alloc, scope, types, required, place, function)?;
    let result = resolve_result(alloc, scope, types, required, place, function)?;
    Ok(Function {
        name: function.name(alloc)?,
        kind: kind_of(scope.names, function),
        params,
        result,
        docs: metadata.docs,
        stability: metadata.stability,
        span: function.span(),
        external_id: metadata.external_id,
    })
}
