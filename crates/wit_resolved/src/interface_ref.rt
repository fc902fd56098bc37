//! Interfaces of packages.
ghost use Rattle.std.specs.Prelude.{◌≡◌, ◌<◌, IfOk, Some, drop, length, slice_get, string_bytes};
ghost use Rattle.std.specs.Map.Iter.{deref_pair};
ghost use Rattle.std.specs.Option.{option_copied, option_map};
ghost use Rattle.wit_groups.specs.Ids.{AreNamesWithin};
ghost use Rattle.wit_resolved.specs.Left.{entries_from, interface_places};
ghost use Rattle.wit_resolved.specs.Lookups.{interface_functions, interface_id, interface_types, own_name, path_of};
ghost use Rattle.wit_resolved.specs.Valid.{IsValid};

use crate::function_ref::FunctionRefs;
use crate::paths::{interface_id, own_name, path_of};
use crate::type_ref::TypeRef;
use std::alloc::{AllocError, Global};
use wit_maps::TextTable;
use wit_model::{Interface, UnresolvedPackage};
use wit_package_names::PackageName;
use wit_types::{InterfaceId, TypeId};

/// An interface of a resolved package.
#[derive(Clone, Copy)]
pub struct InterfaceRef<'p> {
    pub(crate) of: &'p UnresolvedPackage,
    pub(crate) place: usize,
    pub ghost valid: { ∥ IsValid of.now ∥₁ },
    pub ghost within: { place < length of.now.interfaces },
}

impl<'p> InterfaceRef<'p> {
    /// Its id.
    pub fn id(&self) -> InterfaceId
        ensures { result ≡ self.now.place }
    {
        self.of.interfaces.id_at(self.place)
    }

    /// Its entry.
    pub fn get(&self) -> &'p Interface
        ensures { slice_get self.now.of.now.interfaces self.now.place ≡ Some result.now }
    {
        self.of.interfaces.get(self.of.interfaces.id_at(self.place))
    }

    /// Its name, if the package declares it.
    pub fn name(&self) -> Option<&'p str>
        ensures { option_copied result ≡ own_name self.now.of.now self.now.place }
    {
        own_name(self.of, self.place)
    }

    /// The package that declares it, and its name there; an inline interface has neither.
    pub fn path(&self) -> Option<(&'p PackageName, &'p str)>
        ensures { option_map deref_pair result ≡ path_of self.now.of.now self.now.place }
    {
        path_of(self.of, self.place)
    }

    /// Its id as text, as `a:b/c@1.0.0`; an inline interface has none.
    ///
    /// # Errors
    ///
    /// `AllocError` if an allocation failed.
    pub fn interface_id(&self, alloc: Global) -> Result<Option<String>, AllocError>
        ensures { IfOk result (λ id. option_map string_bytes id ≡ interface_id self.now.of.now self.now.place) }
    {
        interface_id(alloc, self.of, self.place)
    }

    /// Its types with their names, those that it uses first.
    pub fn types(&self) -> NamedTypes<'p>
        ensures all { interface_types self.now.of.now self.now.place ≡ Some (drop result.next result.names.now) }
        ensures package { result.of.now ≡ self.now.of.now }
    {
        NamedTypes {
            of: self.of,
            names: &self.get().types,
            next: 0,
        }
    }

    /// Its functions.
    pub fn functions(&self) -> FunctionRefs<'p>
        ensures all { interface_functions self.now.of.now self.now.place ≡ Some (drop result.next result.functions.now) }
        ensures package { result.of.now ≡ self.now.of.now }
    {
        FunctionRefs {
            of: self.of,
            functions: &self.get().functions,
            next: 0,
        }
    }
}

/// The interfaces of a package, in the order of the arena.
#[derive(Drop)]
pub struct InterfaceRefs<'p> {
    pub(crate) of: &'p UnresolvedPackage,
    pub(crate) next: usize,
    pub ghost valid: { ∥ IsValid of.now ∥₁ },
}

impl<'p> Iterator for InterfaceRefs<'p> {
    ghost use Rattle.std.specs.Iterator.{YieldsFirstBy, item_count};

    type Item = InterfaceRef<'p>;

    ghost next_gives = { YieldsFirstBy (λ i. (i.of.now, i.place)) (λ it. interface_places it.of.now it.next) };

    ghost remaining = { item_count (λ it. interface_places it.of.now it.next) };

    fn next(&mut self) -> Option<InterfaceRef<'p>> {
        let of = self.of;
        let place = self.next;
        let len = of.interfaces.len();
        if place >= len {
            return None;
        }
        self.next = place + 1;
        Some(InterfaceRef { of, place })
    }
}

/// The types of an interface with their names.
#[derive(Drop)]
pub struct NamedTypes<'p> {
    pub(crate) of: &'p UnresolvedPackage,
    pub(crate) names: &'p TextTable<TypeId>,
    pub(crate) next: usize,
    pub ghost valid: { ∥ IsValid of.now ∥₁ },
    pub ghost within: { ∥ AreNamesWithin of.now names.now ∥₁ },
}

impl<'p> Iterator for NamedTypes<'p> {
    ghost use Rattle.std.specs.Iterator.{YieldsFirstBy, item_count};

    type Item = (&'p str, TypeRef<'p>);

    ghost next_gives = { YieldsFirstBy
        (λ x. (x.1.of.now, (x.0.now, x.1.place)))
        (λ it. entries_from it.of.now it.names.now it.next) };

    ghost remaining = { item_count (λ it. entries_from it.of.now it.names.now it.next) };

    fn next(&mut self) -> Option<(&'p str, TypeRef<'p>)> {
        let (of, names) = (self.of, self.names);
        let at = self.next;
        let len = names.len();
        if at >= len {
            return None;
        }
        self.next = at + 1;
        let Some((name, id)) = names.get_index(at) else {
            unreachable!()
        };
        let place = id.index();
        Some((name, TypeRef { of, place }))
    }
}
