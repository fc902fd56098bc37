//! What the functions of a scope are read in: its names, its results, and the functions themselves.
ghost use Rattle.std.specs.Prelude.{◌≡◌, List};
ghost use Rattle.std.specs.Option.{option_map};
ghost use Rattle.wit_syntax.specs.Source.{ScopeName};
ghost use Rattle.wit_syntax.specs.SignatureRules.{ok_of as the_ok, result_ok as the_result_ok, type_span};
ghost use Rattle.wit_rules.specs.Signatures.{AreResults};

use crate::borrowed::BorrowedFunction;
use wit_maps::TextTable;
use wit_tree::Span;
use wit_tree::tree::Type;
use wit_types::TypeId;

/// What the functions of a scope are read in.
#[derive(Clone, Copy)]
pub struct FunctionScope<'s, 't, 'a> {
    /// What each name of the scope means.
    pub names: &'s TextTable<TypeId>,
    /// The definitions of the scope that are written as results, under their names.
    pub results: &'s TextTable<&'t Type<'a>>,
    /// The functions of the scope, in source order.
    pub functions: &'s [BorrowedFunction<'t, 'a>],
}

/// What a type that is written as a result gives where all is well, if it gives anything; none where
/// it is no result.
fn ok_of<'t, 'a>(ty: &'t Type<'a>) -> Option<Option<&'t Type<'a>>>
    ensures { option_map (λ ok. option_map (λ t. t.now) ok) result ≡ the_ok ty.now }
{
    match ty {
        Type::Result(_, types) => Some(types.ok()),
        _ => None,
    }
}

/// The same of a type, or of the definition that it names.
pub fn result_ok<'t, 'a>(
    results: &TextTable<&'t Type<'a>>,
    ty: &'t Type<'a>,
) -> Option<Option<&'t Type<'a>>>
    ensures { (xs : List ScopeName) → AreResults results.now xs → option_map (λ ok. option_map (λ t. t.now) ok) result ≡ the_result_ok xs ty.now }
{
    match ty {
        Type::Name(id) => match results.get(id.name) {
            Some(definition) => ok_of(definition),
            None => None,
        },
        _ => ok_of(ty),
    }
}

/// Where a written type is; of a name or a handle by itself, all of it.
pub fn span_of(ty: &Type<'_>) -> Span
    ensures { result ≡ type_span ty.now }
{
    match ty {
        Type::Primitive(span, _)
        | Type::List(span, _)
        | Type::FixedLengthList(span, _, _)
        | Type::Map(span, _, _)
        | Type::Option(span, _)
        | Type::Result(span, _)
        | Type::Tuple(span, _)
        | Type::Future(span, _)
        | Type::Stream(span, _)
        | Type::Own(span, _)
        | Type::Borrow(span, _) => *span,
        Type::Name(id) => id.span,
    }
}
