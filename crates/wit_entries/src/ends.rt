//! Where the entries of an arena end, through names that are other words for a type.
ghost use Rattle.std.specs.Prelude.{◌≡◌, List, Some, [], ◌∷◌, ◌++◌, length, IfOk, OnOk, OnErr};
ghost use Rattle.wit_types.specs.declared.types.TypeDef.{TypeDef};
ghost use Rattle.wit_entries.specs.EntryFaults.{end_in, EndsNext, AreAsStated, end_means};

use std::alloc::AllocError;
use wit_types::{Arena, Type, TypeDef, TypeDefKind, TypeId, TypePlace};

/// Where a type ends.
#[derive(Clone, Copy, Debug, PartialEq, Eq)]
pub enum End {
    /// At a resource.
    Resource,
    /// At a type of another package, of which nothing is known here.
    Unknown(TypeId),
    /// At anything else.
    Other,
}

/// Where the entry at a place ends; nothing comes after the last one.
pub(crate) fn end_at(ends: &[End], id: TypeId) -> End
    ensures { (es : List TypeDef) → AreAsStated ends.now es → end_in es id ≡ Some (end_means result) }
{
    match ends.get(id.index()) {
        Some(end) => *end,
        None => End::Other,
    }
}

/// Where an entry of this kind ends, if it is the next one.
fn end_of(ends: &[End], kind: &TypeDefKind, place: TypeId) -> End
    ensures { (es : List TypeDef) → AreAsStated ends.now es → place ≡ length es → EndsNext es kind.now result }
{
    match kind {
        TypeDefKind::Resource => End::Resource,
        TypeDefKind::Unknown => End::Unknown(place),
        TypeDefKind::Type_(Type::Id(id)) => end_at(ends, *id),
        _ => End::Other,
    }
}

/// Adds an entry after the others, and where it ends.
///
/// The error is a failed allocation, and then nothing is added.
pub(crate) fn add_entry(
    types: &mut Arena<TypeDef, TypePlace>,
    ends: &mut Vec<End>,
    entry: TypeDef,
) -> Result<TypeId, AllocError>
    ensures id { IfOk result (λ id. id ≡ length types.old) }
    ensures added { OnOk result (types.new ≡ types.old ++ entry ∷ []) }
    ensures kept { OnErr result (types.new ≡ types.old) }
    ensures as_stated { AreAsStated ends.old.items types.old → AreAsStated ends.new.items types.new }
{
    let end = end_of(ends, &entry.kind, types.next_id());
    ends.push(end)?;
    match types.add(entry) {
        Ok(id) => Ok(id),
        Err(e) => {
            ends.pop();
            Err(e)
        }
    }
}
