//! Tables that find anonymous types by what they are.

use crate::answers::push_answer;
use std::alloc::{AllocError, Global};
use std::collections::{BTreeMap, HashMap};
use tulfjak::package::{
    Arena, InternKey, InternStep, InternTable, Type, TypeDefKind, TypeId, TypePlace, intern_run,
};

/// The id of the first type.
fn first(alloc: Global) -> TypeId {
    let types: Arena<u8, TypePlace> = Arena::new(alloc);
    types.next_id()
}

/// A list is not there, is put in, and is found.
fn steps(alloc: Global) -> Result<Vec<InternStep>, AllocError> {
    let mut steps = Vec::new(alloc);
    steps.push(InternStep::Find(InternKey::List(Type::U8)))?;
    steps.push(InternStep::Insert(InternKey::List(Type::U8), first(alloc)))?;
    steps.push(InternStep::Find(InternKey::List(Type::U8)))?;
    Ok(steps)
}

/// Adds what a table replies, and what it finds once an option is put in.
fn push_replies<T: InternTable>(
    alloc: Global,
    table: &mut T,
    text: &mut String,
) -> Result<(), AllocError> {
    let replies = intern_run(alloc, table, steps(alloc)?.as_slice());
    push_answer(text, "intern_run", &replies)?;
    table.insert(InternKey::Option(Type::U8), first(alloc))?;
    let found = table.find(&InternKey::Option(Type::U8));
    push_answer(text, "InternTable::find", &found)
}

/// Adds what a table by hashes replies.
fn push_hashed(alloc: Global, text: &mut String) -> Result<(), AllocError> {
    let mut table: HashMap<InternKey, TypeId> = HashMap::new(alloc);
    push_replies(alloc, &mut table, text)
}

/// Adds what a table in order replies.
fn push_ordered(alloc: Global, text: &mut String) -> Result<(), AllocError> {
    let mut table: BTreeMap<InternKey, TypeId> = BTreeMap::new(alloc);
    push_replies(alloc, &mut table, text)
}

/// Adds what calls on tables of types return.
pub fn push_interning(alloc: Global, text: &mut String) -> Result<(), AllocError> {
    push_hashed(alloc, text)?;
    push_ordered(alloc, text)?;
    let key = InternKey::of(&TypeDefKind::List(Type::U8))?;
    let is_list = key == Some(InternKey::List(Type::U8));
    let is_none = InternKey::of(&TypeDefKind::Resource)?.is_none();
    push_answer(text, "InternKey::of", &(is_list, is_none))
}
