//! Values with ids: their equality, and the order of types.
use crate::shared::{check, first_id};
use std::alloc::Global;
use std::cmp::Ordering;
use std::process::Abort;
use wit_model::laws::equality::{
    is_same_ast_item, is_same_function_kind, is_same_owner, is_same_type,
};
use wit_model::laws::order::compare_types;
use wit_model::{AstItem, FunctionKind};
use wit_types::{Type, TypeDefKind, TypeId, TypeOwner, WorldId};

fn numbered(rt: &impl Abort, alloc: Global) {
    let ty: TypeId = first_id(alloc);
    let world: WorldId = first_id(alloc);
    let order = compare_types(Type::ErrorContext, Type::Id(ty));
    check(rt, "an order of types", order == Ordering::Less);
    check(rt, "a type", is_same_type(Type::Id(ty), Type::Id(ty)));
    let (kind, same) = (FunctionKind::Method(ty), FunctionKind::Method(ty));
    check(rt, "a kind", is_same_function_kind(kind, same));
    let (owner, same) = (TypeOwner::World(world), TypeOwner::World(world));
    check(rt, "an owner", is_same_owner(owner, same));
    let (item, same) = (AstItem::World(world), AstItem::World(world));
    check(rt, "an item", is_same_ast_item(item, same));
    check(rt, "a word", TypeDefKind::Resource.as_str() == "resource");
}

#[test]
fn ids_determine(rt: HostRuntime) {
    numbered(&rt, rt.alloc());
}
