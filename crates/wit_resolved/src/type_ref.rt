//! Types of packages.
ghost use Rattle.std.specs.Prelude.{◌≡◌, ◌<◌, IfSome, Some, length, slice_get};
ghost use Rattle.std.specs.Option.{option_copied, option_map};
ghost use Rattle.wit_types.specs.InnerTypes.{handled_of};
ghost use Rattle.wit_resolved.specs.AliasEnds.{IsEnd, IsResourceOf, aliased, aliased_at};
ghost use Rattle.wit_resolved.specs.Left.{type_places};
ghost use Rattle.wit_resolved.specs.Lookups.{type_interface, type_name, type_owner_name, type_world};
ghost use Rattle.wit_resolved.specs.Valid.{IsValid};

use crate::interface_ref::InterfaceRef;
use crate::paths::{own_name, world_name};
use crate::world_ref::WorldRef;
use wit_model::UnresolvedPackage;
use wit_types::type_slots::place_of_slot;
use wit_types::{Handle, TypeDef, TypeDefKind, TypeId, TypeOwner, Types};

/// A type of a resolved package.
#[derive(Clone, Copy)]
pub struct TypeRef<'p> {
    pub(crate) of: &'p UnresolvedPackage,
    pub(crate) place: usize,
    pub ghost valid: { ∥ IsValid of.now ∥₁ },
    pub ghost within: { place < length of.now.types },
}

/// The entry that a kind is an alias of.
fn aliased(kind: &TypeDefKind) -> Option<TypeId>
    ensures { result ≡ aliased kind.now }
{
    match kind {
        TypeDefKind::Type_(ty) => place_of_slot(Some(*ty)),
        _ => None,
    }
}

/// The entry that the type at a place is an alias of.
fn aliased_at(types: &Types, place: usize) -> Option<TypeId>
    requires { place < length types.now }
    ensures { result ≡ aliased_at types.now place }
{
    aliased(&types.get(types.id_at(place)).kind)
}

/// The place of the type that ends a chain of aliases.
fn end_of(resolved: &UnresolvedPackage, place: usize) -> usize
    requires valid { ∥ IsValid resolved.now ∥₁ }
    requires within { place < length resolved.now.types }
    ensures within { result < length resolved.now.types }
    ensures end { IsEnd resolved.now.types place result }
{
    let mut end = place;
    while let Some(next) = aliased_at(&resolved.types, end) {
        end = next.index();
    }
    end
}

/// The type that a handle names.
fn handled(kind: &TypeDefKind) -> Option<TypeId>
    ensures { result ≡ handled_of kind.now }
{
    match kind {
        TypeDefKind::Handle(Handle::Own(id)) => Some(*id),
        TypeDefKind::Handle(Handle::Borrow(id)) => Some(*id),
        _ => None,
    }
}

impl<'p> TypeRef<'p> {
    /// Its id.
    pub fn id(&self) -> TypeId
        ensures { result ≡ self.now.place }
    {
        self.of.types.id_at(self.place)
    }

    /// Its entry.
    pub fn get(&self) -> &'p TypeDef
        ensures { slice_get self.now.of.now.types self.now.place ≡ Some result.now }
    {
        self.of.types.get(self.of.types.id_at(self.place))
    }

    /// Its name; an unnamed type has none.
    pub fn name(&self) -> Option<&'p str>
        ensures { option_copied result ≡ type_name self.now.of.now self.now.place }
    {
        match &self.get().name {
            Some(name) => Some(name.as_str()),
            None => None,
        }
    }

    /// The interface that owns it, if one does.
    pub fn interface(&self) -> Option<InterfaceRef<'p>>
        ensures interface { option_map (λ i. i.place) result ≡ type_interface self.now.of.now self.now.place }
        ensures package { IfSome result (λ i. i.of.now ≡ self.now.of.now) }
    {
        match self.get().owner {
            TypeOwner::Interface(id) => Some(InterfaceRef {
                of: self.of,
                place: id.index(),
            }),
            _ => None,
        }
    }

    /// The world that owns it, if one does.
    pub fn world(&self) -> Option<WorldRef<'p>>
        ensures world { option_map (λ w. w.place) result ≡ type_world self.now.of.now self.now.place }
        ensures package { IfSome result (λ w. w.of.now ≡ self.now.of.now) }
    {
        match self.get().owner {
            TypeOwner::World(id) => Some(WorldRef {
                of: self.of,
                place: id.index(),
            }),
            _ => None,
        }
    }

    /// The name of its owner, if it has one. A world of another package has an empty name.
    pub fn owner_name(&self) -> Option<&'p str>
        ensures { option_copied result ≡ type_owner_name self.now.of.now self.now.place }
    {
        match self.get().owner {
            TypeOwner::Interface(id) => own_name(self.of, id.index()),
            TypeOwner::World(id) => world_name(self.of, id.index()),
            TypeOwner::None => None,
        }
    }

    /// The type that ends its chain of aliases: itself, if it is no alias of an entry.
    pub fn end(&self) -> TypeRef<'p>
        ensures package { result.of.now ≡ self.now.of.now }
        ensures end { IsEnd self.now.of.now.types self.now.place result.place }
    {
        TypeRef {
            of: self.of,
            place: end_of(self.of, self.place),
        }
    }

    /// If it is a handle, the end of the type that the handle names: a resource, or a type of another
    /// package.
    pub fn resource(&self) -> Option<TypeRef<'p>>
        ensures resource { IsResourceOf self.now.of.now.types self.now.place (option_map (λ r. r.place) result) }
        ensures package { IfSome result (λ r. r.of.now ≡ self.now.of.now) }
    {
        match handled(&self.get().kind) {
            Some(id) => Some(TypeRef {
                of: self.of,
                place: end_of(self.of, id.index()),
            }),
            None => None,
        }
    }
}

/// The types of a package, in the order of the arena.
#[derive(Drop)]
pub struct TypeRefs<'p> {
    pub(crate) of: &'p UnresolvedPackage,
    pub(crate) next: usize,
    pub ghost valid: { ∥ IsValid of.now ∥₁ },
}

impl<'p> Iterator for TypeRefs<'p> {
    ghost use Rattle.std.specs.Iterator.{YieldsFirstBy, item_count};

    type Item = TypeRef<'p>;

    ghost next_gives = { YieldsFirstBy (λ t. (t.of.now, t.place)) (λ it. type_places it.of.now it.next) };

    ghost remaining = { item_count (λ it. type_places it.of.now it.next) };

    fn next(&mut self) -> Option<TypeRef<'p>> {
        let of = self.of;
        let place = self.next;
        let len = of.types.len();
        if place >= len {
            return None;
        }
        self.next = place + 1;
        Some(TypeRef { of, place })
    }
}
