//! Refusals of a broken rule.
ghost use Rattle.std.specs.Prelude.{◌≡◌, ◌⊎◌, ◌++◌, IfOk, codes, List, None, Some, ℕ, string_bytes};
ghost use Rattle.std.specs.Option.{option_map};
ghost use Rattle.wit_type_tree.specs.RefusalText.{IsAllocationFailure, IsItemNotFound, IsTypeCycle};
ghost use Rattle.wit_syntax.specs.Fault.{fault_in, fault_of, missing_at, missing_type_at, cyclic_at, type_word, world_there};
ghost use Rattle.wit_syntax.specs.Hint.{hint_of, renamed, type_hint};

use std::alloc::{AllocError, Global};
use wit_type_tree::leaves::Id;
use wit_type_tree::{ParseError, ParseErrorKind};
use wit_values::Span;

/// A rule that is broken at a span, in the words that were made, or that memory is wanted for.
#[cold]
#[inline(never)]
pub fn refuse_in(rule: u8, span: Span, words: Result<String, AllocError>) -> ParseError
    ensures { (said : List ℕ) → IfOk words (λ text. string_bytes text ≡ said) → IsAllocationFailure result ⊎ (fault_of result ≡ fault_in rule span said) }
{
    match words {
        Ok(message) => ParseError::new_syntax(span, message).with_rule(rule),
        Err(e) => e.into(),
    }
}

/// A rule that is broken at a span, in these words.
#[cold]
#[inline(never)]
pub fn refuse(alloc: Global, rule: u8, span: Span, message: &str) -> ParseError
    ensures { IsAllocationFailure result ⊎ (fault_of result ≡ fault_in rule span message.now) }
{
    refuse_in(rule, span, String::from_str(alloc, message))
}

/// The kind of a refusal of a name that means nothing of a sort.
fn item_not_found(
    alloc: Global,
    sort: &str,
    id: Id<'_>,
    hint: Option<String>,
) -> Result<ParseErrorKind, AllocError>
    ensures kind { IfOk result (IsItemNotFound id.entry.span id.entry.name.now sort.now) }
    ensures hint { IfOk result (λ kind. hint_of kind ≡ option_map string_bytes hint) }
{
    Ok(ParseErrorKind::ItemNotFound {
        span: id.span,
        name: String::from_str(alloc, id.name)?,
        kind: String::from_str(alloc, sort)?,
        hint,
    })
}

/// A name that means nothing of a sort.
#[cold]
#[inline(never)]
pub fn refuse_missing(alloc: Global, rule: u8, sort: &str, id: Id<'_>) -> ParseError
    ensures { IsAllocationFailure result ⊎ (fault_of result ≡ missing_at rule sort.now id.entry) }
{
    match item_not_found(alloc, sort, id, None) {
        Ok(kind) => ParseError::of(kind, rule),
        Err(e) => e.into(),
    }
}

/// The words for a name that leads to a world where an interface is wanted.
fn a_world(alloc: Global, name: &str) -> Result<String, AllocError>
    ensures { IfOk result (λ words. string_bytes words ≡ codes "name `" ++ (name.now ++ codes "` is defined as a world, not an interface")) }
{
    format!(in alloc; "name `{name}` is defined as a world, not an interface")
}

/// A name that leads to a world where an interface is wanted.
#[cold]
#[inline(never)]
pub fn refuse_world(alloc: Global, id: Id<'_>) -> ParseError
    ensures { IsAllocationFailure result ⊎ (fault_of result ≡ world_there id.entry) }
{
    refuse_in(10, id.span, a_world(alloc, id.name))
}

/// The words for a type that has another name now.
fn renamed(alloc: Global, old: &str, new: &str) -> Result<Option<String>, AllocError>
    ensures { IfOk result (λ hint. option_map string_bytes hint ≡ Some (renamed old.now new.now)) }
{
    let hint = format!(in alloc;
        "the `{old}` type has been renamed to `{new}` and is no longer accepted, but the `WIT_REQUIRE_F32_F64=0` environment variable can be used to temporarily disable this error"
    )?;
    Ok(Some(hint))
}

/// What may be wrong with the name of a type that is missing.
fn hint(alloc: Global, name: &str) -> Result<Option<String>, AllocError>
    ensures { IfOk result (λ hint. option_map string_bytes hint ≡ type_hint name.now) }
{
    match name {
        "float32" => renamed(alloc, "float32", "f32"),
        "float64" => renamed(alloc, "float64", "f64"),
        _ => Ok(None),
    }
}

/// The kind of a refusal of a name that means no type.
fn type_not_found(alloc: Global, id: Id<'_>) -> Result<ParseErrorKind, AllocError>
    ensures kind { IfOk result (IsItemNotFound id.entry.span id.entry.name.now type_word) }
    ensures hint { IfOk result (λ kind. hint_of kind ≡ type_hint id.entry.name.now) }
{
    let hint = hint(alloc, id.name)?;
    item_not_found(alloc, "type", id, hint)
}

/// A name that means no type (E15); the hint is for names that types had once.
#[cold]
#[inline(never)]
pub fn refuse_missing_type(alloc: Global, id: Id<'_>) -> ParseError
    ensures { IsAllocationFailure result ⊎ (fault_of result ≡ missing_type_at id.entry) }
{
    match type_not_found(alloc, id) {
        Ok(kind) => ParseError::of(kind, 15),
        Err(e) => e.into(),
    }
}

/// The kind of a refusal of a name that means something of a sort that depends on itself.
fn type_cycle(alloc: Global, sort: &str, id: Id<'_>) -> Result<ParseErrorKind, AllocError>
    ensures { IfOk result (IsTypeCycle id.entry.span id.entry.name.now sort.now) }
{
    Ok(ParseErrorKind::TypeCycle {
        span: id.span,
        name: String::from_str(alloc, id.name)?,
        kind: String::from_str(alloc, sort)?,
    })
}

/// A name that means something of a sort that depends on itself.
#[cold]
#[inline(never)]
pub fn refuse_cycle(alloc: Global, rule: u8, sort: &str, id: Id<'_>) -> ParseError
    ensures { IsAllocationFailure result ⊎ (fault_of result ≡ cyclic_at rule sort.now id.entry) }
{
    match type_cycle(alloc, sort, id) {
        Ok(kind) => ParseError::of(kind, rule),
        Err(e) => e.into(),
    }
}
