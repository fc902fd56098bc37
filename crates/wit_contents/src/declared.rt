//! A declared interface.
ghost use Rattle.std.specs.Prelude.{◌≡◌, IfErr, OnOk, Some, false};
ghost use Rattle.wit_type_tree.specs.RefusalText.{IsAllocationFailure};
ghost use Rattle.wit_items.specs.BorrowedItems.{item_view};
ghost use Rattle.wit_contents.specs.Making.{IsItemIn, PutsInterface};
ghost use Rattle.wit_contents.specs.Interfaces.{AddsDeclared, FindsOne};

use crate::interface::interface_of;
use crate::making::Making;
use wit_items::items::Item;
use wit_links::inside::declared_name;
use wit_links::resolved::Resolved;
use wit_model::Interface;
use wit_tree::ParseResult;

/// Adds a declared interface, under its name.
fn add_interface(
    resolved: &mut Resolved<'_, '_, '_, '_>,
    name: &str,
    interface: Interface,
) -> ParseResult<()>
    requires { interface.name ≡ Some name.now }
    ensures puts { OnOk result (PutsInterface resolved.old resolved.new interface) }
    ensures refused { IfErr result IsAllocationFailure }
{
    let interfaces = &mut resolved.interfaces;
    let alloc = *interfaces.by_name.allocator();
    let place = interfaces.arena.add(interface)?;
    let name = String::from_str(alloc, name)?;
    interfaces.by_name.put(name, place)?;
    Ok(())
}

/// Adds a declared interface with what is stated of it, its names, and what is in them, and then its
/// functions.
pub(crate) fn resolve_interface<'f, 'a>(
    item: &Item<'f, 'a>,
    making: &mut Making<'f, 'a, '_, '_>,
) -> ParseResult<()>
    requires { IsItemIn making.old.resolved.interfaces false item.now }
    ensures adds { OnOk result (AddsDeclared making.old making.new (item_view item.now)) }
    ensures first { FindsOne making.old (item_view item.now) result }
{
    let place = making.resolved.interfaces.arena.next_id();
    let scope = item.scope();
    let interface = interface_of(&scope, &mut making.growing, &making.resolved, place)?;
    let id = declared_name(&item.declared);
    add_interface(&mut making.resolved, id.name, interface)
}
