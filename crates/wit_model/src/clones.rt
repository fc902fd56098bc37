//! Clones: each is equal to its source, the order of maps included.
ghost use Rattle.std.specs.Prelude.{◌≡◌, IfOk};

use crate::interface::Interface;
use crate::world::{World, WorldInclude, WorldItem, WorldKey};
use std::alloc::AllocError;
use wit_functions::Function;
use wit_maps::{Table, TextTable};
use wit_types::TypeId;
use wit_types::laws::copies::{copy_docs, copy_external_id, copy_stability, copy_text};
use wit_values::Row;

fn copy_types(types: &TextTable<TypeId>) -> Result<TextTable<TypeId>, AllocError>
    ensures { IfOk result (λ copy. copy ≡ types.now) }
{
    types.clone()
}

fn copy_functions(functions: &TextTable<Function>) -> Result<TextTable<Function>, AllocError>
    ensures { IfOk result (λ copy. copy ≡ functions.now) }
{
    functions.clone()
}

fn copy_items(items: &Table<WorldKey, WorldItem>) -> Result<Table<WorldKey, WorldItem>, AllocError>
    ensures { IfOk result (λ copy. copy ≡ items.now) }
{
    items.clone()
}

fn copy_includes(includes: &Row<WorldInclude>) -> Result<Row<WorldInclude>, AllocError>
    ensures { IfOk result (λ copy. copy ≡ includes.now) }
{
    includes.clone()
}

impl Clone for Interface {
    ghost is_clone = { λ interface copy. copy ≡ interface };

    fn clone(&self) -> Result<Interface, AllocError> {
        Ok(Interface {
            name: copy_text(&self.name)?,
            types: copy_types(&self.types)?,
            functions: copy_functions(&self.functions)?,
            docs: copy_docs(&self.docs)?,
            stability: copy_stability(&self.stability)?,
            package: self.package,
            span: self.span,
            clone_of: self.clone_of,
        })
    }
}

impl Clone for WorldItem {
    ghost is_clone = { λ item copy. copy ≡ item };

    fn clone(&self) -> Result<WorldItem, AllocError> {
        match self {
            WorldItem::Interface {
                id,
                stability,
                external_id,
                docs,
                span,
            } => Ok(WorldItem::Interface {
                id: *id,
                stability: copy_stability(stability)?,
                external_id: copy_external_id(external_id)?,
                docs: copy_docs(docs)?,
                span: *span,
            }),
            WorldItem::Function(function) => Ok(WorldItem::Function(function.clone()?)),
            WorldItem::Type_ { id, span } => Ok(WorldItem::Type_ {
                id: *id,
                span: *span,
            }),
        }
    }
}

impl Clone for World {
    ghost is_clone = { λ world copy. copy ≡ world };

    fn clone(&self) -> Result<World, AllocError> {
        Ok(World {
            name: self.name.clone()?,
            imports: copy_items(&self.imports)?,
            exports: copy_items(&self.exports)?,
            package: self.package,
            docs: copy_docs(&self.docs)?,
            stability: copy_stability(&self.stability)?,
            includes: copy_includes(&self.includes)?,
            span: self.span,
        })
    }
}
