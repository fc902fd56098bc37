//! The functions of an item as they are written, and as they are in the package.
ghost use Rattle.std.specs.Prelude.{◌≡◌, ◌++◌, IfOk, OnOk, false, map, nat_eq};
ghost use Rattle.std.specs.Cmp.Lexicographic.{pointwise};
ghost use Rattle.std.specs.List.{flat_map};
ghost use Rattle.indexmap.specs.IndexMap.{insert_entry};
ghost use Rattle.wit_syntax.specs.Repeats.{AllDiffer};
ghost use Rattle.wit_syntax.specs.Source.{interface_part, is_world, local_name, world_part};
ghost use Rattle.wit_syntax.specs.Function.{definition_functions, extern_functions, part_functions};
ghost use Rattle.wit_arena.specs.SourceFunctions.{placed_functions};
ghost use Rattle.wit_rules.specs.Signatures.{function_view, AreResults};
ghost use Rattle.wit_syntax.specs.SignatureRules.{body_ok, ok_of};
ghost use Rattle.wit_syntax.specs.Sides.{functions as the_functions};
ghost use Rattle.wit_items.specs.BorrowedItems.{scope_item};
ghost use Rattle.wit_scopes.specs.BorrowedNames.{name_view};
ghost use Rattle.std.specs.Option.{option_and_then};

use std::alloc::{AllocError, Global};
use wit_items::items::{Declared, ItemScope};
use wit_maps::TextTable;
use wit_model::Function;
use wit_rules::borrowed::BorrowedFunction;
use wit_scopes::scope_name::ScopeName;
use wit_setters::interface_setters::setters_after_getters;
use wit_top_names::declaration::world_items;
use wit_tree::tree::{
    Extern, ExternKind, InterfaceItem, Type, TypeBody, TypeDef, World, WorldItem,
};
use wit_values::{pair_with, push};

/// Adds the functions of a definition: those of a resource.
fn add_definition<'t, 'a>(
    part: &'t TypeDef<'a>,
    functions: &mut Vec<BorrowedFunction<'t, 'a>>,
) -> Result<(), AllocError>
    ensures { OnOk result (map function_view functions.new.items ≡ map function_view functions.old.items ++ definition_functions part.now.name part.now.body) }
{
    if let TypeBody::Resource { funcs } = &part.body {
        for function in funcs {
            push(functions, BorrowedFunction::Of(part.name, function))?;
        }
    }
    Ok(())
}

/// Adds the function that a world imports or exports, if it is one.
fn add_extern_part<'t, 'a>(
    written: &'t Extern<'a>,
    functions: &mut Vec<BorrowedFunction<'t, 'a>>,
) -> Result<(), AllocError>
    ensures { OnOk result (map function_view functions.new.items ≡ map function_view functions.old.items ++ extern_functions written.now written.now.kind) }
{
    match &written.kind {
        ExternKind::Func(name, func) => push(
            functions,
            BorrowedFunction::Across(
                written.side,
                &written.docs,
                &written.attributes,
                *name,
                func,
            ),
        ),
        ExternKind::Interface(_, _) => Ok(()),
        ExternKind::Path(_) => Ok(()),
        ExternKind::NamedPath(_, _) => Ok(()),
    }
}

/// The functions of a world, in source order: those of its resources, and those that it imports and
/// exports.
pub fn world_functions<'t, 'a>(
    alloc: Global,
    world: &'t World<'a>,
) -> Result<Vec<BorrowedFunction<'t, 'a>>, AllocError>
    ensures { IfOk result (λ fs. map function_view fs.items ≡ flat_map part_functions (map world_part world.now.items.items)) }
{
    let mut functions = Vec::new(alloc);
    for part in world_items(world) {
        match part {
            WorldItem::TypeDef(definition) => add_definition(definition, &mut functions)?,
            WorldItem::Use(_) => {}
            WorldItem::Include(_) => {}
            WorldItem::Extern(written) => add_extern_part(written, &mut functions)?,
        }
    }
    Ok(functions)
}

/// The functions of an interface with these items, in source order.
fn items_functions<'t, 'a>(
    alloc: Global,
    items: &'t [InterfaceItem<'a>],
) -> Result<Vec<BorrowedFunction<'t, 'a>>, AllocError>
    ensures { IfOk result (λ fs. map function_view fs.items ≡ flat_map part_functions (map interface_part items.now)) }
{
    let mut functions = Vec::new(alloc);
    for part in items {
        match part {
            InterfaceItem::TypeDef(definition) => add_definition(definition, &mut functions)?,
            InterfaceItem::Func(function) => push(
                &mut functions,
                BorrowedFunction::Free(function),
            )?,
            InterfaceItem::Use(_) => {}
        }
    }
    Ok(functions)
}

/// The functions of an interface, in source order; none of a world.
pub fn interface_functions<'t, 'a>(
    alloc: Global,
    item: &ItemScope<'t, 'a, '_>,
) -> Result<Vec<BorrowedFunction<'t, 'a>>, AllocError>
    ensures { IfOk result (λ fs. is_world (scope_item item.now) ≡ false → map function_view fs.items ≡ the_functions (scope_item item.now)) }
{
    match &item.declared {
        Declared::Interface(interface) => items_functions(alloc, &interface.items),
        Declared::Inline(inline) => items_functions(alloc, inline.items),
        Declared::World(_) => Ok(Vec::new(alloc)),
    }
}

/// The type of a definition that is written as a result.
fn written_result<'t, 'a>(definition: &'t TypeDef<'a>) -> Option<&'t Type<'a>>
    ensures { option_and_then (λ t. ok_of t.now) result ≡ body_ok definition.now.body }
{
    match &definition.body {
        TypeBody::Plain(ty) => match ty {
            Type::Result(_, _) => Some(ty),
            _ => None,
        },
        _ => None,
    }
}

/// The definitions of a scope that are written as results, under their names.
pub fn written_results<'t, 'a>(
    alloc: Global,
    names: &[ScopeName<'t, 'a>],
) -> Result<TextTable<&'t Type<'a>>, AllocError>
    requires { AllDiffer (map local_name (map name_view names.now)) }
    ensures { IfOk result (λ rs. AreResults rs (map name_view names.now)) }
{
    let mut results = TextTable::new(alloc);
    for name in names {
        if let ScopeName::Defined(defined) = name {
            let definition = defined.definition;
            if let Some(ty) = written_result(definition) {
                results.put(String::from_str(alloc, definition.name.name)?, ty)?;
            }
        }
    }
    Ok(results)
}

/// Puts a function at its name.
fn add_function(
    alloc: Global,
    table: &mut TextTable<Function>,
    function: Function,
) -> Result<(), AllocError>
    ensures { OnOk result (table.new ≡ insert_entry (pointwise nat_eq) table.old function.name function) }
{
    let text = String::from_str(alloc, function.name.as_str());
    let (function, name) = pair_with(function, text)?;
    table.put(name, function)
}

/// The functions of an interface under their names, where each setter that is written before its
/// getter comes directly after it.
pub fn function_table(
    alloc: Global,
    functions: Vec<Function>,
) -> Result<TextTable<Function>, AllocError>
    requires { AllDiffer (map (λ f. f.name) functions.items) }
    ensures { IfOk result (λ t. t ≡ placed_functions functions.items) }
{
    let placed = setters_after_getters(alloc, functions)?;
    let mut table = TextTable::with_capacity(alloc, placed.len())?;
    for function in placed {
        add_function(alloc, &mut table, function)?;
    }
    Ok(table.shrunk())
}
