//! What other packages' items put before the arenas.
ghost use Rattle.std.specs.Prelude.{◌≡◌, ◌∷◌, ◌<◌, All, Some, [], true, false, length, map, nat_eq, slice_get, IfOk, OnOk};
ghost use Rattle.std.specs.Cmp.Lexicographic.{pointwise};
ghost use Rattle.indexmap.specs.IndexMap.{insert_entry};
ghost use Rattle.wit_syntax.specs.Shorthand.{use_of_foreign};
ghost use Rattle.wit_files.specs.ForeignPaths.{foreign_view};
ghost use Rattle.wit_scopes.specs.BorrowedNames.{name_view, IsNamePlaced, AreNamesPlaced};
ghost use Rattle.wit_items.specs.BorrowedItems.{ArePlacedInside, IsItemPlaced};
ghost use Rattle.wit_front.specs.ForeignPrefix.{AddsPrefix, AddsUsed, AddsVisit, inside_uses, interface_with, with_types, bare_world, AreAdded, HasUsed, name_foreign_uses, names_foreign_uses, borrowed_foreign_uses};

use std::alloc::{AllocError, Global};
use wit_entries::entries::Entries;
use wit_files::ForeignVisit;
use wit_items::items::{Inside, Item};
use wit_maps::{Table, TextTable};
use wit_model::{AstItem, Interface, World};
use wit_notes::stated_metadata;
use wit_scopes::scope_name::{ScopeName, Source};
use wit_tree::Span;
use wit_tree::tree::{Attribute, UseName};
use wit_types::{
    Arena, Docs, InterfaceId, InterfacePlace, Stability, TypeDefKind, TypeId, TypeOwner, WorldPlace,
};
use wit_values::{Row, Text};

/// The interfaces and worlds of other packages.
#[derive(Drop)]
pub struct ForeignArenas {
    pub interfaces: Arena<Interface, InterfacePlace>,
    pub worlds: Arena<World, WorldPlace>,
    /// Of each item its entry, in the order of their first visits.
    pub entries: Vec<AstItem>,
    /// Where each type of theirs is first used.
    pub spans: Vec<Span>,
}

/// An interface of another package, of which no type is known yet.
fn foreign_interface(alloc: Global, span: Span) -> Interface
    ensures { result ≡ interface_with span [] }
{
    Interface {
        name: None,
        types: TextTable::new(alloc),
        functions: TextTable::new(alloc),
        docs: Docs::default(),
        stability: Stability::default(),
        package: None,
        span,
        clone_of: None,
    }
}

/// A world of another package.
fn foreign_world(alloc: Global, span: Span) -> Result<World, AllocError>
    ensures { IfOk result (λ w. w ≡ bare_world span) }
{
    Ok(World {
        name: Text::from_str(alloc, "")?,
        imports: Table::new(alloc),
        exports: Table::new(alloc),
        package: None,
        docs: Docs::default(),
        stability: Stability::default(),
        includes: Row::new(alloc),
        span,
    })
}

/// Adds a type to an interface, under its name.
fn add_type(
    alloc: Global,
    interface: &mut Interface,
    name: &str,
    ty: TypeId,
) -> Result<(), AllocError>
    ensures { OnOk result (interface.new ≡ with_types interface.old (insert_entry (pointwise nat_eq) interface.old.types name.now ty)) }
{
    interface.types.put(String::from_str(alloc, name)?, ty)?;
    Ok(())
}

impl ForeignArenas {
    /// Nothing of other packages, with room for so many interfaces.
    fn with_room(alloc: Global, room: usize) -> Result<Self, AllocError>
        ensures { IfOk result (AreAdded [] [] []) }
    {
        let mut interfaces = Arena::new(alloc);
        interfaces.reserve(room)?;
        Ok(ForeignArenas {
            interfaces,
            worlds: Arena::new(alloc),
            entries: Vec::new(alloc),
            spans: Vec::new(alloc),
        })
    }

    /// Adds a world at its first visit.
    fn add_world(&mut self, alloc: Global, visit: ForeignVisit<'_, '_>) -> Result<(), AllocError>
        requires { visit.wants_world ≡ true }
        ensures { OnOk result (AddsVisit self.old self.new (foreign_view visit.entry)) }
    {
        let world = foreign_world(alloc, visit.name.span)?;
        let id = self.worlds.alloc(world)?;
        self.entries.push(AstItem::World(id))?;
        Ok(())
    }

    /// Adds an interface at its first visit.
    fn add_interface(
        &mut self,
        alloc: Global,
        visit: ForeignVisit<'_, '_>,
    ) -> Result<(), AllocError>
        requires { visit.wants_world ≡ false }
        ensures { OnOk result (AddsVisit self.old self.new (foreign_view visit.entry)) }
    {
        let interface = foreign_interface(alloc, visit.name.span);
        let id = self.interfaces.alloc(interface)?;
        self.entries.push(AstItem::Interface(id))?;
        Ok(())
    }

    /// Adds an item at its first visit.
    fn add(&mut self, alloc: Global, visit: ForeignVisit<'_, '_>) -> Result<(), AllocError>
        ensures { OnOk result (AddsVisit self.old self.new (foreign_view visit.entry)) }
    {
        if visit.wants_world {
            return self.add_world(alloc, visit);
        }
        self.add_interface(alloc, visit)
    }

    /// Items of other packages, of which no type is known yet, with room for so many interfaces
    /// after theirs.
    ///
    /// The error is a failed allocation.
    pub fn of_items(
        alloc: Global,
        items: &[ForeignVisit<'_, '_>],
        declared: usize,
    ) -> Result<Self, AllocError>
        ensures { IfOk result (AreAdded (map foreign_view items.now) [] []) }
    {
        let room = items.len().saturating_add(declared);
        let mut arenas = ForeignArenas::with_room(alloc, room)?;
        for visit in items {
            arenas.add(alloc, *visit)?;
        }
        Ok(arenas)
    }

    /// Adds a type that is used from an interface of another package, by a `use` with these attributes,
    /// unless it was used before.
    ///
    /// The error is a failed allocation.
    fn add_used_type(
        &mut self,
        alloc: Global,
        types: &mut Entries,
        place: usize,
        attributes: &[Attribute<'_>],
        name: &UseName<'_>,
    ) -> Result<(), AllocError>
        requires within { place < length self.old.interfaces }
        ensures { OnOk result ((s : _) → AddsUsed types.old self.old types.new self.new (λ p. slice_get p place ≡ Some s) (use_of_foreign s attributes.now name.now ∷ [])) }
    {
        let used = name.name;
        let id = self.interfaces.id_at(place);
        if self.interfaces.get(id).types.get(used.name).is_some() {
            return Ok(());
        }
        let metadata = stated_metadata(alloc, attributes)?;
        let owner = TypeOwner::Interface(id);
        let ty = types.add_named(alloc, owner, used, metadata, TypeDefKind::Unknown)?;
        add_type(alloc, self.interfaces.get_mut(id), used.name, ty)?;
        self.spans.push(used.span)?;
        Ok(())
    }

    /// Adds the type that a name of a scope is used from, if that is of another package.
    ///
    /// The error is a failed allocation.
    fn add_used_by_name(
        alloc: Global,
        name: &ScopeName<'_, '_>,
        arenas: &mut ForeignArenas,
        types: &mut Entries,
    ) -> Result<(), AllocError>
        requires { HasUsed types.old arenas.old (λ p. IsNamePlaced p name.now) }
        ensures { OnOk result (AddsUsed types.old arenas.old types.new arenas.new (λ p. IsNamePlaced p name.now) (name_foreign_uses (name_view name.now))) }
    {
        match name {
            ScopeName::Used(used) => match used.from {
                Source::Declared(_) => Ok(()),
                Source::Foreign { place, .. } => {
                    arenas.add_used_type(alloc, types, place, used.attributes, used.name)
                }
            },
            ScopeName::Defined(_) => Ok(()),
        }
    }

    /// Adds the types that a scope uses from interfaces of other packages.
    ///
    /// The error is a failed allocation.
    fn add_used_by_names(
        alloc: Global,
        names: &[ScopeName<'_, '_>],
        arenas: &mut ForeignArenas,
        types: &mut Entries,
    ) -> Result<(), AllocError>
        requires { HasUsed types.old arenas.old (λ p. AreNamesPlaced p names.now) }
        ensures { OnOk result (AddsUsed types.old arenas.old types.new arenas.new (λ p. AreNamesPlaced p names.now) (names_foreign_uses names.now)) }
    {
        for name in names {
            ForeignArenas::add_used_by_name(alloc, name, arenas, types)?;
        }
        Ok(())
    }

    /// Adds the types that interfaces which are written in a world use from those of other packages.
    ///
    /// The error is a failed allocation.
    fn add_used_inside(
        alloc: Global,
        inside: &[Inside<'_, '_>],
        arenas: &mut ForeignArenas,
        types: &mut Entries,
    ) -> Result<(), AllocError>
        requires { HasUsed types.old arenas.old (λ p. ArePlacedInside p inside.now) }
        ensures { OnOk result (AddsUsed types.old arenas.old types.new arenas.new (λ p. ArePlacedInside p inside.now) (inside_uses inside.now)) }
    {
        for interface in inside {
            ForeignArenas::add_used_by_names(alloc, &interface.names, arenas, types)?;
        }
        Ok(())
    }

    /// Adds the types that an item uses from interfaces of other packages: those of its own names, then
    /// those of what is written in it, on the imported side and then on the exported one.
    ///
    /// The error is a failed allocation.
    fn add_used_by_item(
        alloc: Global,
        item: &Item<'_, '_>,
        arenas: &mut ForeignArenas,
        types: &mut Entries,
    ) -> Result<(), AllocError>
        requires { HasUsed types.old arenas.old (λ p. IsItemPlaced p item.now) }
        ensures { OnOk result (AddsUsed types.old arenas.old types.new arenas.new (λ p. IsItemPlaced p item.now) (borrowed_foreign_uses item.now)) }
    {
        ForeignArenas::add_used_by_names(alloc, &item.names, arenas, types)?;
        ForeignArenas::add_used_inside(alloc, &item.imported, arenas, types)?;
        ForeignArenas::add_used_inside(alloc, &item.exported, arenas, types)
    }

    /// Adds the types that items use from interfaces of other packages, in the order of their visits.
    ///
    /// The error is a failed allocation.
    pub fn add_used_by_items(
        alloc: Global,
        items: &[Item<'_, '_>],
        arenas: &mut ForeignArenas,
        types: &mut Entries,
    ) -> Result<(), AllocError>
        requires { HasUsed types.old arenas.old (λ p. All (IsItemPlaced p) items.now) }
        ensures { OnOk result (AddsPrefix types.old arenas.old types.new arenas.new items.now) }
    {
        for item in items {
            ForeignArenas::add_used_by_item(alloc, item, arenas, types)?;
        }
        Ok(())
    }
}
