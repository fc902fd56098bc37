//! The declarations of a file, and what is in an interface or in a world.
ghost use Rattle.std.specs.Prelude.{◌≡◌};

use wit_tree::tree::{AstItem, Interface, InterfaceItem, PackageFile, World, WorldItem};

/// What a file declares, in source order.
pub fn declarations<'f, 'a>(file: &'f PackageFile<'a>) -> &'f [AstItem<'a>]
    ensures { result.now ≡ file.now.decl_list.items.items }
{
    &file.decl_list.items
}

/// What is in an interface, in source order.
pub fn interface_items<'f, 'a>(interface: &'f Interface<'a>) -> &'f [InterfaceItem<'a>]
    ensures { result.now ≡ interface.now.items.items }
{
    &interface.items
}

/// What is in a world, in source order.
pub fn world_items<'f, 'a>(world: &'f World<'a>) -> &'f [WorldItem<'a>]
    ensures { result.now ≡ world.now.items.items }
{
    &world.items
}
