//! Items, parted into setters that come before their getter and others.
ghost use Rattle.std.specs.Prelude.{◌≡◌, ◌++◌, ◌∷◌, [], IfOk, OnOk, string_bytes};
ghost use Rattle.std.specs.BTreeSet.{contains_text};
ghost use Rattle.std.specs.Option.{option_map};
ghost use Rattle.wit_functions.specs.MaybeFunction.{HaveOwnNames, offered as the_offered, wanted as the_wanted};
ghost use Rattle.wit_functions.specs.Parted.{AreParted, OffersBeside, PartsNext, known};

use crate::maybe_function::{MaybeFunction, offered, wanted};
use std::alloc::{AllocError, Global};
use std::collections::{BTreeMap, BTreeSet};

/// Items, parted on the way back through them.
#[derive(Drop)]
pub(crate) struct Parted<T> {
    /// Those that wait for no getter, the last one first.
    pub others: Vec<T>,
    /// The names of the getters.
    pub getters: BTreeSet<String>,
    /// The setters that come before their getter, under its name.
    pub waiting: BTreeMap<String, T>,
}

impl<T: MaybeFunction> Parted<T> {
    /// The name of the getter that an item wants, where it is one of those here.
    fn known_getter(&self, alloc: Global, item: &T) -> Result<Option<String>, AllocError>
        ensures { IfOk result (λ name. option_map string_bytes name ≡ known (contains_text self.now.getters) (the_wanted (T.function_at item.now))) }
    {
        match wanted(alloc, item.maybe_function())? {
            Some(name) => {
                if self.getters.contains(name.as_str()) {
                    Ok(Some(name))
                } else {
                    Ok(None)
                }
            }
            None => Ok(None),
        }
    }

    /// Adds an item that waits for none of those here.
    fn keep(&mut self, alloc: Global, item: T) -> Result<(), AllocError>
        ensures others { OnOk result (self.new.others.items ≡ self.old.others.items ++ item ∷ []) }
        ensures getters { OnOk result (OffersBeside (the_offered (T.function_at item)) (contains_text self.old.getters) (contains_text self.new.getters)) }
        ensures waiting { OnOk result (self.new.waiting ≡ self.old.waiting) }
    {
        if let Some(name) = offered(item.maybe_function()) {
            let name = String::from_str(alloc, name)?;
            self.getters.insert(name)?;
        }
        self.others.push(item)?;
        Ok(())
    }

    /// Adds an item that comes before those here.
    fn add(&mut self, alloc: Global, item: T) -> Result<(), AllocError>
        ensures { OnOk result (PartsNext T.function_at item self.old self.new) }
    {
        match self.known_getter(alloc, &item)? {
            Some(name) => {
                self.waiting.insert(name, item)?;
            }
            None => self.keep(alloc, item)?,
        }
        Ok(())
    }
}

/// Items, parted.
pub(crate) fn part<T: MaybeFunction>(alloc: Global, items: Vec<T>) -> Result<Parted<T>, AllocError>
    ensures { IfOk result (λ parted. HaveOwnNames T.function_at items.items → AreParted T.function_at items.items parted) }
{
    let mut items = items;
    items.reverse();
    let mut parted = Parted {
        others: Vec::new(alloc),
        getters: BTreeSet::new(alloc),
        waiting: BTreeMap::new(alloc),
    };
    for item in items {
        parted.add(alloc, item)?;
    }
    Ok(parted)
}
