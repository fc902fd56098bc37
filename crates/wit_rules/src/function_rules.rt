//! The rules of functions: of their parameters and of their results.
ghost use Rattle.std.specs.Prelude.{◌≡◌, ◌⊎◌, List, Some, IfOk, codes, map};
ghost use Rattle.wit_type_tree.specs.RefusalText.{IsAllocationFailure};
ghost use Rattle.wit_type_tree.specs.declared.types.FuncForm.TheVariants.{Getter, Setter};
ghost use Rattle.wit_values.specs.declared.span.Span.{Span};
ghost use Rattle.wit_names.specs.Folded.{lower_case};
ghost use Rattle.wit_syntax.specs.Fault.{fault_in, fault_of};
ghost use Rattle.wit_syntax.specs.Words.{defined_twice as twice_words};
ghost use Rattle.wit_first.specs.First.{Finds, IsFirstRepeat};
ghost use Rattle.wit_first.specs.FunctionFaults.{getter_fault, given_fault, is_written_as, made_fault, setter_fault, params_fault};
ghost use Rattle.wit_syntax.specs.Source.{ScopeName};
ghost use Rattle.wit_syntax.specs.Function.{all_params};
ghost use Rattle.wit_syntax.specs.SignatureRules.{ok_span as the_ok_span, result_ok as the_result_ok};
ghost use Rattle.wit_rules.specs.Signatures.{function_view, AreResults, gives_fault};

use crate::borrowed::BorrowedFunction;
use crate::function_scope::{result_ok, span_of};
use std::alloc::{AllocError, Global};
use wit_maps::TextTable;
use wit_refusals::refusal::{refuse, refuse_in};
use wit_refusals::repeat_words::defined_twice;
use wit_refusals::repeats::first_folded_repeat;
use wit_tree::tree::{FuncForm, Id, Param, Type};
use wit_tree::{ParseError, ParseResult, Span};

/// What is said of a setter whose result is no `result`, or gives something where all is well.
const SETTER_RESULT: &str =
    "if a setter return type is declared it must be a `result` with no `ok` type";

/// What is said of a constructor whose result is no `result`.
const CONSTRUCTOR_RESULT: &str = "if a constructor return type is declared it must be a `result`";

/// What is said of a setter that has not just one parameter.
const SETTER_PARAMS: &str = "setters must have exactly one parameter";

/// What is said of a constructor of something else than its resource.
const CONSTRUCTOR_OK: &str = "the `ok` type must be the resource being constructed";

/// Refuses a getter with a parameter (E36).
fn check_getter(alloc: Global, params: &[Param<'_>]) -> ParseResult<()>
    ensures { (word : Span) → Finds (params_fault Getter params.now word) result }
{
    match params.first() {
        Some(first) => {
            let span = first.name.span;
            Err(refuse(alloc, 36, span, "getters cannot have parameters"))
        }
        None => Ok(()),
    }
}

/// Refuses a setter that has not just one parameter (E37), at the word that begins its signature where
/// it has none.
fn check_setter(alloc: Global, params: &[Param<'_>], word: Span) -> ParseResult<()>
    ensures { Finds (params_fault Setter params.now word) result }
{
    if params.len() == 1 {
        return Ok(());
    }
    match params.get(1) {
        Some(second) => Err(refuse(alloc, 37, second.name.span, SETTER_PARAMS)),
        None => Err(refuse(alloc, 37, word, SETTER_PARAMS)),
    }
}

/// Refuses a getter with a parameter (E36), and a setter that has not just one (E37).
pub fn check_given(alloc: Global, function: BorrowedFunction<'_, '_>) -> ParseResult<()>
    ensures { Finds (given_fault (function_view function.entry)) result }
{
    match function.form() {
        FuncForm::Getter => check_getter(alloc, function.params()),
        FuncForm::Setter => check_setter(alloc, function.params(), function.word()),
        FuncForm::Plain | FuncForm::Async => Ok(()),
    }
}

/// The names of all parameters; `self` is the first of a method.
fn param_names<'t, 'a>(
    alloc: Global,
    function: BorrowedFunction<'t, 'a>,
) -> Result<Vec<&'a str>, AllocError>
    ensures { IfOk result (λ names. map (λ t. t.now) names.items ≡ map (λ p. p.name) (all_params (function_view function.entry))) }
{
    let params = function.params();
    let mut names = Vec::with_capacity(alloc, function.param_count())?;
    if function.given().is_some() {
        names.push("self")?;
    }
    for param in params {
        names.push(param.name.name)?;
    }
    Ok(names)
}

/// The place among all parameters of the first that an earlier one is, once case is folded.
pub fn repeated_param(
    alloc: Global,
    function: BorrowedFunction<'_, '_>,
) -> Result<Option<usize>, AllocError>
    ensures { IfOk result (IsFirstRepeat (λ p. lower_case p.name) (all_params (function_view function.entry))) }
{
    if function.param_count() < 2 {
        return Ok(None);
    }
    let names = param_names(alloc, function)?;
    match first_folded_repeat(alloc, &names)? {
        Some((_, second)) => Ok(Some(second)),
        None => Ok(None),
    }
}

/// The refusal of a parameter whose name an earlier one has (E38).
pub fn refuse_param(alloc: Global, name: Id<'_>) -> ParseError
    ensures { IsAllocationFailure result ⊎ (fault_of result ≡ fault_in 38 name.entry.span (twice_words (codes "param") name.entry.name.now)) }
{
    refuse_in(38, name.span, defined_twice(alloc, "param", name.name))
}

/// Refuses a getter without a result (E39).
pub fn check_returns(alloc: Global, function: BorrowedFunction<'_, '_>) -> ParseResult<()>
    ensures { Finds (getter_fault (function_view function.entry).func.form (function_view function.entry).func.span) result }
{
    match function.form() {
        FuncForm::Getter => {
            let message = "getters must return a value";
            Err(refuse(alloc, 39, function.word(), message))
        }
        FuncForm::Plain | FuncForm::Async | FuncForm::Setter => Ok(()),
    }
}

/// Refuses a setter's result unless it is a `result` that gives nothing where all is well (E40).
fn check_setter_result<'t, 'a>(
    alloc: Global,
    results: &TextTable<&'t Type<'a>>,
    ty: &'t Type<'a>,
) -> ParseResult<()>
    ensures { (xs : List ScopeName) → AreResults results.now xs → Finds (setter_fault ty.now (the_result_ok xs ty.now)) result }
{
    match result_ok(results, ty) {
        Some(None) => Ok(()),
        Some(Some(_)) | None => Err(refuse(alloc, 40, span_of(ty), SETTER_RESULT)),
    }
}

/// Whether a type is written as a name, or as a handle that owns it.
fn is_written_as(name: Id<'_>, ty: &Type<'_>) -> bool
    ensures { result ≡ is_written_as name.entry (Some ty.now) }
{
    match ty {
        Type::Name(id) | Type::Own(_, id) => id.name == name.name,
        _ => false,
    }
}

/// Where a result gives what it gives where all is well, if that is written there; else all of it.
fn ok_span(ty: &Type<'_>) -> Span
    ensures { result ≡ the_ok_span ty.now }
{
    match ty {
        Type::Result(span, types) => match types.ok() {
            Some(ok) => span_of(ok),
            None => *span,
        },
        _ => span_of(ty),
    }
}

/// Refuses a constructor's result unless it is a `result` (E41) that gives its resource where all is
/// well (E42).
fn check_made<'t, 'a>(
    alloc: Global,
    results: &TextTable<&'t Type<'a>>,
    resource: Id<'a>,
    ty: &'t Type<'a>,
) -> ParseResult<()>
    ensures { (xs : List ScopeName) → AreResults results.now xs → Finds (made_fault resource.entry ty.now (the_result_ok xs ty.now)) result }
{
    let Some(ok) = result_ok(results, ty) else {
        return Err(refuse(alloc, 41, span_of(ty), CONSTRUCTOR_RESULT));
    };
    match ok {
        Some(ok) if is_written_as(resource, ok) => Ok(()),
        _ => Err(refuse(alloc, 42, ok_span(ty), CONSTRUCTOR_OK)),
    }
}

/// Refuses what a setter (E40) or a constructor (E41, E42) gives, where it is another type than it
/// has to be.
pub fn check_result<'t, 'a>(
    alloc: Global,
    results: &TextTable<&'t Type<'a>>,
    function: BorrowedFunction<'t, 'a>,
    ty: &'t Type<'a>,
) -> ParseResult<()>
    ensures { (xs : List ScopeName) → AreResults results.now xs → Finds (gives_fault xs (function_view function.entry) ty.now) result }
{
    if let FuncForm::Setter = function.form() {
        return check_setter_result(alloc, results, ty);
    }
    match function.made() {
        Some(resource) => check_made(alloc, results, resource, ty),
        None => Ok(()),
    }
}
