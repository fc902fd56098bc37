//! The types of a package, while they are made: each unnamed one once.
ghost use Rattle.std.specs.Prelude.{◌≡◌, ◌+◌, None, Some, [], ◌∷◌, ◌++◌, ◌↔◌, length, IsTrue, IfOk, OnOk, OnErr};
ghost use Rattle.wit_types.specs.declared.types.TypeDef.{TypeDef};
ghost use Rattle.wit_arena.specs.Occurrences.{settled as the_settled};
ghost use Rattle.wit_arena.specs.UnfoldedTypes.{At};
ghost use Rattle.wit_arena.specs.Resolving.{IsUnnamedOf, IsInterned, named, unnamed};
ghost use Rattle.wit_intern.specs.TypeKeys.{key_of};
ghost use Rattle.wit_notes.specs.BorrowedMetadata.{metadata_view};
ghost use Rattle.wit_entries.specs.Known.{AreKnown, IsFoundOr, IsMissing, IsSet, IsNotAfter, inner_of, key_hashes_at, keys_at};
ghost use Rattle.wit_entries.specs.EntryFaults.{end_in, end_means, IsExtended};

use crate::ends::{End, add_entry, end_at};
use crate::settling::settled;
use crate::unnamed_table::KeyTable;
use std::alloc::{AllocError, Global};
use std::marker::Model;
use wit_intern::InternKey;
use wit_notes::Metadata;
use wit_tree::Span;
use wit_tree::tree::Id;
use wit_types::{
    Arena, Docs, Stability, Type, TypeDef, TypeDefKind, TypeId, TypeOwner, TypePlace, is_same_kind,
};
use wit_values::{Rare, Text};

/// The entries of the arena of types, and a table that knows the unnamed ones by what they are.
///
/// Contracts see the list of the entries.
pub struct Entries {
    arena: Arena<TypeDef, TypePlace>,
    // Each unnamed entry is here; a place that was meant for a refused one may be here too.
    table: KeyTable,
    // Where each entry ends.
    ends: Vec<End>,
}

impl Drop for Entries {
    fn drop(self) {
        let Entries {
            arena: _,
            table: _,
            ends: _,
        } = self;
    }
}

impl Model for Entries {
    ghost use Rattle.std.specs.Prelude.{List};
    ghost use Rattle.wit_types.specs.declared.types.TypeDef.{TypeDef};
    ghost use Rattle.wit_entries.specs.Known.{AreKnown, key_hashes_at, keys_at};
    ghost use Rattle.wit_entries.specs.EntryFaults.{AreAsStated};

    ghost Value = { List TypeDef };

    ghost view = { λ e. e.arena };

    ghost invariant = { λ e. AreKnown (key_hashes_at e.table) (keys_at e.table) e.arena × AreAsStated e.ends.items e.arena };
}

/// Whether an entry is the unnamed type of a kind.
fn is_unnamed_of(entry: &TypeDef, kind: &TypeDefKind) -> bool
    ensures { IsTrue result ↔ IsUnnamedOf kind.now entry.now }
{
    entry.name.is_none() && is_same_kind(&entry.kind, kind)
}

/// The unnamed type of a kind, where there is one, by looking at each entry.
fn find_unnamed(types: &Arena<TypeDef, TypePlace>, kind: &TypeDefKind) -> Option<TypeId>
    ensures { IsFoundOr (IsMissing kind.now types.now) types.now kind.now result }
{
    for place in 0..types.len() {
        let id = types.id_at(place);
        if is_unnamed_of(types.get(id), kind) {
            return Some(id);
        }
    }
    None
}

/// The place, where the unnamed type of a kind is there.
fn confirmed(types: &Arena<TypeDef, TypePlace>, id: TypeId, kind: &TypeDefKind) -> Option<TypeId>
    ensures { IsFoundOr ((e : TypeDef) → At types.now id e → IsUnnamedOf kind.now e → ⊥) types.now kind.now result }
{
    if id.index() < types.len() {
        if is_unnamed_of(types.get(id), kind) {
            return Some(id);
        }
    }
    None
}

/// The type that a list or an option is made of, unless that is a primitive.
fn inner_of(kind: &TypeDefKind) -> Option<TypeId>
    ensures { result ≡ inner_of kind.now }
{
    match kind {
        TypeDefKind::List(Type::Id(id)) | TypeDefKind::Option(Type::Id(id)) => Some(*id),
        _ => None,
    }
}

/// The unnamed type of a kind, if it is right after the unnamed type that it is made of: there it
/// was added if that was new too.
fn find_aliased(types: &Arena<TypeDef, TypePlace>, kind: &TypeDefKind) -> Option<TypeId>
    ensures { IsFoundOr (IsNotAfter types.now kind.now) types.now kind.now result }
{
    let inner = inner_of(kind)?;
    let place = inner.index();
    let len = types.len();
    if place >= len || place + 1 >= len {
        return None;
    }
    if types.get(inner).name.is_some() {
        return None;
    }
    confirmed(types, types.id_at(place + 1), kind)
}

/// Sets a place at a key, if there is a key.
fn set(table: &mut KeyTable, key: Option<InternKey>, id: TypeId) -> Result<(), AllocError>
    ensures set { OnOk result (IsSet key id (key_hashes_at table.old) (keys_at table.old) (key_hashes_at table.new) (keys_at table.new)) }
    ensures key_hashes_stay { OnErr result (key_hashes_at table.new ≡ key_hashes_at table.old) }
    ensures keys_stay { OnErr result (keys_at table.new ≡ keys_at table.old) }
{
    match key {
        Some(key) => table.insert(key, id),
        None => Ok(()),
    }
}

impl Entries {
    /// No entries.
    pub fn new(alloc: Global) -> Entries
        ensures { result ≡ [] }
    {
        Entries {
            arena: Arena::new(alloc),
            table: KeyTable::new(alloc),
            ends: Vec::new(alloc),
        }
    }

    /// Makes room for more entries, as many as these.
    ///
    /// The error is a failed allocation.
    pub fn reserve(&mut self, more: usize) -> Result<(), AllocError>
        ensures { self.new ≡ self.old }
    {
        self.arena.reserve(more)
    }

    /// The arena of the entries.
    pub fn into_arena(self) -> Arena<TypeDef, TypePlace>
        ensures { result ≡ self }
    {
        let Entries {
            arena,
            table: _,
            ends: _,
        } = self;
        arena
    }

    /// Adds the named entry of an owner, with its metadata, after the others.
    ///
    /// The error is a failed allocation.
    pub fn add_named(
        &mut self,
        alloc: Global,
        owner: TypeOwner,
        name: Id<'_>,
        metadata: Metadata,
        kind: TypeDefKind,
    ) -> Result<TypeId, AllocError>
        ensures id { IfOk result (λ id. id ≡ length self.old) }
        ensures added { OnOk result (self.new ≡ self.old ++ named owner name.entry.name.now kind (metadata_view metadata) name.entry.span ∷ []) }
        ensures extended { IsExtended self.old self.new }
    {
        let text = Text::from_str(alloc, name.name)?;
        let entry = TypeDef {
            name: Some(text),
            kind,
            owner,
            docs: metadata.docs,
            stability: metadata.stability,
            span: name.span,
            external_id: metadata.external_id,
        };
        let id = add_entry(&mut self.arena, &mut self.ends, entry)?;
        Ok(id)
    }

    /// Where the entry at an id ends, through names that are other words for a type.
    pub fn end(&self, id: TypeId) -> End
        ensures { end_in self.now id ≡ Some (end_means result) }
    {
        end_at(&self.ends, id)
    }

    /// The unnamed type of a kind with this key, where there is one.
    fn find_keyed(&self, key: &InternKey, kind: &TypeDefKind) -> Option<TypeId>
        requires { Some key.now ≡ key_of kind.now }
        ensures { IsFoundOr (IsMissing kind.now self.now) self.now kind.now result }
    {
        if let Some(id) = self.table.at_key_hash(key) {
            if let Some(found) = confirmed(&self.arena, id, kind) {
                return Some(found);
            }
        }
        match self.table.at_key(key) {
            Some(id) => confirmed(&self.arena, id, kind),
            None => None,
        }
    }

    /// The unnamed type of a kind, where there is one. A kind without a key is looked for in each entry.
    fn find(&self, key: &Option<InternKey>, kind: &TypeDefKind) -> Option<TypeId>
        requires { key.now ≡ key_of kind.now }
        ensures { IsFoundOr (IsMissing kind.now self.now) self.now kind.now result }
    {
        match key {
            Some(key) => self.find_keyed(key, kind),
            None => find_unnamed(&self.arena, kind),
        }
    }

    /// Adds the unnamed type of a kind that has none yet, written at `span` in a definition of the
    /// stability `given`, after the others.
    ///
    /// The error is a failed allocation. It is by itself since a `TypeDef` is large: what finds one
    /// needs no room for it.
    #[inline(never)]
    fn add_unnamed(
        &mut self,
        key: Option<InternKey>,
        kind: TypeDefKind,
        given: &Stability,
        span: Span,
    ) -> Result<TypeId, AllocError>
        requires keyed { key ≡ key_of kind }
        requires missing { IsMissing kind self.old }
        ensures id { IfOk result (λ id. id ≡ length self.old) }
        ensures added { OnOk result (self.new ≡ self.old ++ unnamed kind (the_settled self.old given.now kind) span ∷ []) }
        ensures extended { IsExtended self.old self.new }
    {
        let stability = settled(&self.arena, given, &kind)?;
        set(&mut self.table, key, self.arena.next_id())?;
        let entry = TypeDef {
            name: None,
            kind,
            owner: TypeOwner::None,
            docs: Docs::default(),
            stability,
            span,
            external_id: Rare::none(),
        };
        let id = add_entry(&mut self.arena, &mut self.ends, entry)?;
        Ok(id)
    }

    /// The unnamed type of a kind; a new entry, written at `span` in a definition of the stability
    /// `given`, only if there is none.
    ///
    /// The error is a failed allocation. Types that are nested one in the other are mostly found at once, each
    /// right after the one in it.
    pub fn intern(
        &mut self,
        kind: TypeDefKind,
        given: &Stability,
        span: Span,
    ) -> Result<TypeId, AllocError>
        ensures interned { IfOk result (λ id. IsInterned self.old self.new kind given.now span id) }
        ensures extended { IsExtended self.old self.new }
    {
        if let Some(id) = find_aliased(&self.arena, &kind) {
            return Ok(id);
        }
        let key = InternKey::of(&kind)?;
        if let Some(id) = self.find(&key, &kind) {
            return Ok(id);
        }
        let id = self.add_unnamed(key, kind, given, span)?;
        Ok(id)
    }
}
