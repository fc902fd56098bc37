//! Imports and exports of worlds.
ghost use Rattle.std.specs.Prelude.{◌≡◌, IfOk, IfSome, string_bytes};
ghost use Rattle.std.specs.Option.{option_map};
ghost use Rattle.wit_resolved.specs.Left.{entries_from};
ghost use Rattle.wit_resolved.specs.Lookups.{interface_of, key_name, type_of};
ghost use Rattle.wit_resolved.specs.Valid.{AreItemsValid, IsItemValid, IsValid, named_function};

use crate::function_ref::FunctionRef;
use crate::interface_ref::InterfaceRef;
use crate::paths::interface_id;
use crate::type_ref::TypeRef;
use std::alloc::{AllocError, Global};
use wit_maps::Table;
use wit_model::{UnresolvedPackage, WorldItem, WorldKey};

/// An import or an export of a world, with its key.
#[derive(Clone, Copy)]
pub struct ItemRef<'p> {
    pub(crate) of: &'p UnresolvedPackage,
    pub(crate) key: &'p WorldKey,
    pub(crate) item: &'p WorldItem,
    pub ghost valid: { ∥ IsValid of.now ∥₁ },
    pub ghost within: { ∥ IsItemValid of.now key.now item.now ∥₁ },
}

impl<'p> ItemRef<'p> {
    /// What it is found by.
    pub fn key(&self) -> &'p WorldKey
        ensures { result.now ≡ self.now.key.now }
    {
        self.key
    }

    /// Its entry.
    pub fn get(&self) -> &'p WorldItem
        ensures { result.now ≡ self.now.item.now }
    {
        self.item
    }

    /// Its full name: its name in the world, mangled for a function, or the id of its interface.
    ///
    /// # Errors
    ///
    /// `AllocError` if an allocation failed.
    pub fn name(&self, alloc: Global) -> Result<Option<String>, AllocError>
        ensures { IfOk result (λ name. option_map string_bytes name ≡ key_name self.now.of.now self.now.key.now) }
    {
        match self.key {
            WorldKey::Name(name) => {
                let text = String::from_str(alloc, name.as_str())?;
                Ok(Some(text))
            }
            WorldKey::Interface(id) => interface_id(alloc, self.of, id.index()),
        }
    }

    /// The interface that it is, if it is one.
    pub fn interface(&self) -> Option<InterfaceRef<'p>>
        ensures interface { option_map (λ i. i.place) result ≡ interface_of self.now.item.now }
        ensures package { IfSome result (λ i. i.of.now ≡ self.now.of.now) }
    {
        match self.item {
            WorldItem::Interface { id, .. } => Some(InterfaceRef {
                of: self.of,
                place: id.index(),
            }),
            _ => None,
        }
    }

    /// The function, if it is one and its key is a name.
    pub fn function(&self) -> Option<FunctionRef<'p>>
        ensures function { option_map (λ f. f.function.now) result ≡ named_function self.now.key.now self.now.item.now }
        ensures package { IfSome result (λ f. f.of.now ≡ self.now.of.now) }
    {
        match (self.key, self.item) {
            (WorldKey::Name(_), WorldItem::Function(function)) => Some(FunctionRef {
                of: self.of,
                function,
            }),
            _ => None,
        }
    }

    /// The type that it is, if it is one.
    pub fn ty(&self) -> Option<TypeRef<'p>>
        ensures ty { option_map (λ t. t.place) result ≡ type_of self.now.item.now }
        ensures package { IfSome result (λ t. t.of.now ≡ self.now.of.now) }
    {
        match self.item {
            WorldItem::Type_ { id, .. } => Some(TypeRef {
                of: self.of,
                place: id.index(),
            }),
            _ => None,
        }
    }
}

/// The imports or the exports of a world.
#[derive(Drop)]
pub struct ItemRefs<'p> {
    pub(crate) of: &'p UnresolvedPackage,
    pub(crate) items: &'p Table<WorldKey, WorldItem>,
    pub(crate) next: usize,
    pub ghost valid: { ∥ IsValid of.now ∥₁ },
    pub ghost each: { ∥ AreItemsValid of.now items.now ∥₁ },
}

impl<'p> Iterator for ItemRefs<'p> {
    ghost use Rattle.std.specs.Iterator.{YieldsFirstBy, item_count};

    type Item = ItemRef<'p>;

    ghost next_gives = { YieldsFirstBy
        (λ x. (x.of.now, (x.key.now, x.item.now)))
        (λ it. entries_from it.of.now it.items.now it.next) };

    ghost remaining = { item_count (λ it. entries_from it.of.now it.items.now it.next) };

    fn next(&mut self) -> Option<ItemRef<'p>> {
        let (of, items) = (self.of, self.items);
        let at = self.next;
        let len = items.len();
        if at >= len {
            return None;
        }
        self.next = at + 1;
        let Some((key, item)) = items.get_index(at) else {
            unreachable!()
        };
        Some(ItemRef { of, key, item })
    }
}
