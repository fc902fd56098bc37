//! The names of a scope, while it is resolved.
ghost use Rattle.std.specs.Prelude.{◌≡◌, OnOk};
ghost use Rattle.wit_arena.specs.Resolving.{IsAdded};
ghost use Rattle.wit_notes.specs.BorrowedMetadata.{metadata_view};
ghost use Rattle.wit_entries.specs.EntryFaults.{IsExtended};

use crate::entries::Entries;
use std::alloc::{AllocError, Global};
use wit_maps::TextTable;
use wit_notes::Metadata;
use wit_tree::Span;
use wit_tree::tree::Id;
use wit_types::{TypeDefKind, TypeId, TypeOwner};

/// A type of another package that has to be a resource, and where a handle names it.
pub type Required = (TypeId, Span);

/// The names of an interface or a world, while it is resolved.
#[derive(Drop)]
pub struct Scope {
    /// The interface or the world.
    pub owner: TypeOwner,
    /// What each name means.
    pub names: TextTable<TypeId>,
    /// What handles require of types of other packages, in the order in which they are resolved.
    pub required: Vec<Required>,
}

impl Scope {
    /// Adds the entry of a name of the scope, with its metadata, and the name.
    ///
    /// The error is a failed allocation.
    pub fn declare(
        &mut self,
        alloc: Global,
        types: &mut Entries,
        name: Id<'_>,
        metadata: Metadata,
        kind: TypeDefKind,
    ) -> Result<(), AllocError>
        ensures added { OnOk result (IsAdded types.old types.new self.old.owner self.old.names self.new.names name.entry.name.now (metadata_view metadata) name.entry.span kind) }
        ensures owner { OnOk result (self.new.owner ≡ self.old.owner) }
        ensures required { self.new.required ≡ self.old.required }
        ensures extended { IsExtended types.old types.new }
    {
        let id = types.add_named(alloc, self.owner, name, metadata, kind)?;
        self.names.put(String::from_str(alloc, name.name)?, id)?;
        Ok(())
    }
}
