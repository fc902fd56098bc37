//! All interfaces and worlds of a package, one after another.
ghost use Rattle.std.specs.Prelude.{OnOk};
ghost use Rattle.wit_contents.specs.Files.{AreMade, FindsAfter, IsReady};
ghost use Rattle.wit_contents.specs.Making.{IsBegun};

use crate::declared::resolve_interface;
use crate::making::Making;
use crate::world::resolve_world;
use wit_items::items::{Declared, Item};
use wit_tree::ParseResult;

/// Resolves the interfaces among items, and then the worlds, each in the order of these places, after what
/// files name of other packages.
pub fn resolve_items<'f, 'a>(
    items: &[Item<'f, 'a>],
    places: &[usize],
    making: &mut Making<'f, 'a, '_, '_>,
) -> ParseResult<()>
    requires ready { IsReady making.old.resolved.interfaces.files items.now places.now }
    requires begun { IsBegun making.old }
    ensures made { OnOk result (AreMade making.old.resolved.interfaces.files making.new) }
    ensures first { FindsAfter 6 making.old.resolved.interfaces.files result }
{
    for place in places {
        let item = &items[*place];
        match item.declared {
            Declared::Interface(_) => resolve_interface(item, making)?,
            Declared::World(_) | Declared::Inline(_) => {}
        }
    }
    for next in places {
        let world = &items[*next];
        match world.declared {
            Declared::World(_) => resolve_world(world, making)?,
            Declared::Interface(_) | Declared::Inline(_) => {}
        }
    }
    Ok(())
}
