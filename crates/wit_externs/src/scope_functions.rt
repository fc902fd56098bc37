//! The functions of a scope, one after another, where nothing else is on its sides.
ghost use Rattle.std.specs.Prelude.{◌≡◌, IfOk, OnOk, map};
ghost use Rattle.wit_syntax.specs.Address.{Address};
ghost use Rattle.wit_syntax.specs.Sides.{SideFunction};
ghost use Rattle.wit_arena.specs.Resolving.{env_of, AddsFunctions};
ghost use Rattle.wit_entries.specs.EntryFaults.{IsExtended};
ghost use Rattle.wit_rules.specs.Signatures.{functions_view, HaveOwners};
ghost use Rattle.wit_signatures.specs.FunctionsOfScope.{name_of_function, name_of_made};
ghost use Rattle.wit_externs.specs.Clash.{DefinesNames, StayApart, FindsAlone, SignaturesRequire};

use crate::defining::define_alone;
use std::alloc::Global;
use wit_entries::entries::Entries;
use wit_entries::scope::Required;
use wit_functions::Function;
use wit_rules::function_scope::FunctionScope;
use wit_sides::Sides;
use wit_signatures::functions::resolve_function;
use wit_tree::ParseResult;

/// The functions of a scope over their types, in source order: the name of each is defined after those
/// before it.
///
/// A refusal is one of `resolve_function`; E17 where an earlier name of the side has the folded key; or a
/// failed allocation.
pub fn resolve_functions(
    alloc: Global,
    scope: FunctionScope<'_, '_, '_>,
    types: &mut Entries,
    required: &mut Vec<Required>,
    in_use: &mut Sides,
) -> ParseResult<Vec<Function>>
    requires owners { HaveOwners (env_of scope.names.now) (functions_view scope) }
    ensures adds { IfOk result (λ fs. (s : Address) → AddsFunctions types.old types.new s scope.entry.names.now (functions_view scope.entry) fs.items) }
    ensures named { IfOk result (λ fs. map name_of_made fs.items ≡ map name_of_function (functions_view scope.entry)) }
    ensures defined { OnOk result (DefinesNames in_use.old in_use.new (map SideFunction (functions_view scope.entry))) }
    ensures differ { OnOk result (StayApart in_use.old in_use.new) }
    ensures handled { OnOk result (SignaturesRequire scope.entry.names.now types.new (functions_view scope.entry) required.old required.new) }
    ensures extended { IsExtended types.old types.new }
    ensures first { FindsAlone scope.entry types.new in_use.old result }
{
    let mut functions = Vec::with_capacity(alloc, scope.functions.len())?;
    for borrowed in scope.functions {
        let function = resolve_function(alloc, scope, types, required, functions.len())?;
        define_alone(*borrowed, in_use, &function)?;
        functions.reserve(1)?;
        functions.push_reserved(function);
    }
    Ok(functions)
}
