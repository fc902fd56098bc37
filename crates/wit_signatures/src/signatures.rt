//! Types in signatures.
ghost use Rattle.std.specs.Prelude.{◌≡◌, ◌+◌, take};
ghost use Rattle.wit_signatures.specs.FunctionsOfScope.{ResolvesSigned};

use std::alloc::Global;
use wit_entries::entries::Entries;
use wit_entries::names::TypeScope;
use wit_entries::scope::Required;
use wit_entries::types::resolve_type;
use wit_rules::borrowed::BorrowedFunction;
use wit_rules::function_scope::FunctionScope;
use wit_tree::{ParseResult, tree};
use wit_types::{Stability, Type};

/// The functions up to the one at a place.
fn up_to<'s, 't, 'a>(
    functions: &'s [BorrowedFunction<'t, 'a>],
    place: usize,
) -> &'s [BorrowedFunction<'t, 'a>]
    ensures { result.now ≡ take (place + 1) functions.now }
{
    if place < functions.len() {
        return &functions[..place + 1];
    }
    functions
}

/// The type that a written one in the signature of the function at a place means. It is in
/// no definition, so that no stability is given it.
///
/// A refusal is E22, E26, E27, E28 or E29 at a type in it, or a failed allocation.
pub(crate) fn resolve_in_signature(
    alloc: Global,
    scope: FunctionScope<'_, '_, '_>,
    types: &mut Entries,
    required: &mut Vec<Required>,
    place: usize,
    ty: &tree::Type<'_>,
) -> ParseResult<Type>
    ensures { ResolvesSigned scope.entry place types.old types.new required.old required.new ty.now result }
{
    let scope = TypeScope {
        names: scope.names,
        functions: Some(up_to(scope.functions, place)),
    };
    resolve_type(alloc, types, &scope, required, &Stability::Unknown, ty)
}
