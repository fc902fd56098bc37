//! Packages.
ghost use Rattle.std.specs.Prelude.{◌≡◌, ◌<◌, IfSome, Some, length};
ghost use Rattle.std.specs.Option.{option_map};
ghost use Rattle.wit_types.specs.InnerTypes.{place_of};
ghost use Rattle.wit_resolved.specs.Lookups.{interface_named, is_name, place_within, world_named};
ghost use Rattle.wit_resolved.specs.Valid.{AreMade, IsMade, IsValid};

use crate::interface_ref::{InterfaceRef, InterfaceRefs};
use crate::type_ref::{TypeRef, TypeRefs};
use crate::world_ref::{WorldRef, WorldRefs};
use wit_groups::package_laws::{functions_have_marks, ids_are_within, ids_point_backward};
use wit_model::{Interface, UnresolvedPackage, World};
use wit_types::type_slots::place_of_slot;
use wit_types::{Arena, InterfacePlace, Type, WorldPlace};

/// A resolved package, borrowed. It is copied freely, and gives what the package has.
#[derive(Clone, Copy)]
pub struct PackageRef<'p> {
    pub(crate) of: &'p UnresolvedPackage,
    pub ghost valid: { ∥ IsValid of.now ∥₁ },
}

/// Whether an interface has this name.
fn is_interface(interface: &Interface, name: &str) -> bool
    ensures { result ≡ is_name name.now interface.now.name }
{
    match &interface.name {
        Some(own) => own.as_str() == name,
        None => false,
    }
}

/// The place of the first interface of a name.
fn interface_named(interfaces: &Arena<Interface, InterfacePlace>, name: &str) -> Option<usize>
    ensures place { result ≡ interface_named interfaces.now name.now }
    ensures within { IfSome result (λ place. place < length interfaces.now) }
{
    interfaces.iter().position(|it| is_interface(it, name))
}

/// Whether a world has this name.
fn is_world(world: &World, name: &str) -> bool
    ensures { result ≡ is_name name.now (Some world.now.name) }
{
    world.name.as_str() == name
}

/// The place of the first world of a name.
fn world_named(worlds: &Arena<World, WorldPlace>, name: &str) -> Option<usize>
    ensures place { result ≡ world_named worlds.now name.now }
    ensures within { IfSome result (λ place. place < length worlds.now) }
{
    worlds.iter().position(|it| is_world(it, name))
}

/// What holds of each package that legal files make.
fn known(resolved: &UnresolvedPackage)
    requires { ∥ IsMade resolved.now ∥₁ }
    ensures { ∥ IsValid resolved.now ∥₁ }
{
    ids_are_within(resolved);
    ids_point_backward(resolved);
    functions_have_marks(resolved);
}

impl<'p> PackageRef<'p> {
    /// A package that legal files make.
    pub(crate) fn of(resolved: &'p UnresolvedPackage) -> PackageRef<'p>
        requires { ∥ IsMade resolved.now ∥₁ }
        ensures { result.of.now ≡ resolved.now }
    {
        known(resolved);
        PackageRef { of: resolved }
    }

    /// The package.
    pub fn get(&self) -> &'p UnresolvedPackage
        ensures { result.now ≡ self.now.of.now }
    {
        self.of
    }

    /// Its types, in the order of the arena.
    pub fn types(&self) -> TypeRefs<'p>
        ensures package { result.of.now ≡ self.now.of.now }
        ensures first { result.next ≡ 0 }
    {
        TypeRefs {
            of: self.of,
            next: 0,
        }
    }

    /// Its interfaces, in the order of the arena: those of other packages, those that it declares, and the
    /// inline ones of its worlds.
    pub fn interfaces(&self) -> InterfaceRefs<'p>
        ensures package { result.of.now ≡ self.now.of.now }
        ensures first { result.next ≡ 0 }
    {
        InterfaceRefs {
            of: self.of,
            next: 0,
        }
    }

    /// Its worlds, in the order of the arena: those of other packages, and those that it declares.
    pub fn worlds(&self) -> WorldRefs<'p>
        ensures package { result.of.now ≡ self.now.of.now }
        ensures first { result.next ≡ 0 }
    {
        WorldRefs {
            of: self.of,
            next: 0,
        }
    }

    /// The entry of a type, if it has one: none of a primitive, nor of an id beyond this package's arena.
    pub fn entry(&self, ty: Type) -> Option<TypeRef<'p>>
        ensures entry { option_map (λ t. t.place) result ≡ place_within (length self.now.of.now.types) (place_of ty) }
        ensures package { IfSome result (λ t. t.of.now ≡ self.now.of.now) }
    {
        let Some(id) = place_of_slot(Some(ty)) else {
            return None;
        };
        let place = id.index();
        if place < self.of.types.len() {
            Some(TypeRef { of: self.of, place })
        } else {
            None
        }
    }

    /// The interface of this name that the package declares, if it declares one.
    pub fn interface(&self, name: &str) -> Option<InterfaceRef<'p>>
        ensures interface { option_map (λ i. i.place) result ≡ interface_named self.now.of.now.interfaces name.now }
        ensures package { IfSome result (λ i. i.of.now ≡ self.now.of.now) }
    {
        match interface_named(&self.of.interfaces, name) {
            Some(place) => Some(InterfaceRef { of: self.of, place }),
            None => None,
        }
    }

    /// The first world of this name, if there is one. An empty name finds a world of another package, since
    /// those have no name here.
    pub fn world(&self, name: &str) -> Option<WorldRef<'p>>
        ensures world { option_map (λ w. w.place) result ≡ world_named self.now.of.now.worlds name.now }
        ensures package { IfSome result (λ w. w.of.now ≡ self.now.of.now) }
    {
        match world_named(&self.of.worlds, name) {
            Some(place) => Some(WorldRef { of: self.of, place }),
            None => None,
        }
    }
}

/// Packages in order.
#[derive(Drop)]
pub struct PackageRefs<'p> {
    pub(crate) left: &'p [UnresolvedPackage],
    pub ghost made: { ∥ AreMade left.now ∥₁ },
}

impl<'p> Iterator for PackageRefs<'p> {
    ghost use Rattle.std.specs.Iterator.{YieldsFirstBy, item_count};

    type Item = PackageRef<'p>;

    ghost next_gives = { YieldsFirstBy (λ p. p.of.now) (λ it. it.left.now) };

    ghost remaining = { item_count (λ it. it.left.now) };

    fn next(&mut self) -> Option<PackageRef<'p>> {
        match self.left.split_first() {
            Some((first, others)) => {
                self.left = others;
                Some(PackageRef::of(first))
            }
            None => None,
        }
    }
}
