//! Lists of values, and maps in their order.
ghost use Rattle.std.specs.Prelude.{◌≡◌, ◌∷◌, [], OnOk, map};
ghost use Rattle.json.specs.Json.{Json};
ghost use Rattle.wit_json.specs.ValueTokens.{Adds, AddsEach, AddsMembers};
ghost use Rattle.wit_json.specs.Values.{list, number_json};
ghost use Rattle.wit_json.specs.Interfaces.{table_json};

use crate::members::write_number;
use crate::output::Output;
use std::alloc::AllocError;
use wit_maps::TextTable;
use wit_types::{Arena, TypeId};

/// A value that JSON can be written of.
pub trait AsJson {
    ghost json: { Self → Json };

    /// Writes the JSON.
    fn write(&self, out: &mut Output) -> Result<(), AllocError>
        ensures { OnOk result (Adds out.old out.new (json self.now)) };
}

impl AsJson for TypeId {
    ghost json = { number_json };

    fn write(&self, out: &mut Output) -> Result<(), AllocError> {
        write_number(out, self.index())
    }
}

/// Values in order, without brackets.
pub fn push_each<T: AsJson>(out: &mut Output, items: &[T]) -> Result<(), AllocError>
    ensures { OnOk result (AddsEach out.old out.new (map T.json items.now)) }
{
    for item in items {
        item.write(out)?;
    }
    Ok(())
}

/// An array of values.
#[tactic(auto, using(crate::proofs::Closing::list_closed))]
pub fn write_list<T: AsJson>(out: &mut Output, items: &[T]) -> Result<(), AllocError>
    ensures { OnOk result (Adds out.old out.new (list (map T.json items.now))) }
{
    out.begin_array()?;
    push_each(out, items)?;
    out.end_array()
}

/// The values of an arena in order, without brackets.
fn push_arena<T: AsJson, M>(out: &mut Output, items: &Arena<T, M>) -> Result<(), AllocError>
    ensures { OnOk result (AddsEach out.old out.new (map T.json items.now)) }
{
    for place in 0..items.len() {
        items.get(items.id_at(place)).write(out)?;
    }
    Ok(())
}

/// An array of the values of an arena.
#[tactic(auto, using(crate::proofs::Closing::list_closed))]
pub fn write_arena<T: AsJson, M>(out: &mut Output, items: &Arena<T, M>) -> Result<(), AllocError>
    ensures { OnOk result (Adds out.old out.new (list (map T.json items.now))) }
{
    out.begin_array()?;
    push_arena(out, items)?;
    out.end_array()
}

/// A key and its value.
fn push_entry<T: AsJson>(out: &mut Output, name: &str, value: &T) -> Result<(), AllocError>
    ensures { OnOk result (AddsMembers out.old out.new ((name.now, T.json value.now) ∷ [])) }
{
    out.key(name)?;
    value.write(out)
}

/// The entries of a map, in order.
fn push_entries<T: AsJson>(out: &mut Output, table: &TextTable<T>) -> Result<(), AllocError>
    ensures { OnOk result (AddsMembers out.old out.new (map (λ e. (e.0, T.json e.1)) table.now)) }
{
    for place in 0..table.len() {
        let Some((name, value)) = table.get_index(place) else {
            unreachable!()
        };
        push_entry(out, name, value)?;
    }
    Ok(())
}

/// A map in its order.
#[tactic(auto, using(crate::proofs::Closing::fields_closed))]
pub fn write_table<T: AsJson>(out: &mut Output, table: &TextTable<T>) -> Result<(), AllocError>
    ensures { OnOk result (Adds out.old out.new (table_json T.json table.now)) }
{
    out.begin_object()?;
    push_entries(out, table)?;
    out.end_object()
}
