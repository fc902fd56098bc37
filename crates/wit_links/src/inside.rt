//! What occurs in a world, and the name of an item.
ghost use Rattle.std.specs.Prelude.{◌≡◌, ◌++◌, ◌∷◌, [], IfOk, true};
ghost use Rattle.wit_tree.specs.declared.tree.Extern.{Extern as TheExtern};
ghost use Rattle.wit_syntax.specs.Source.{TheWorld, about};
ghost use Rattle.wit_syntax.specs.Sides.{SideFunction, SideInline};
ghost use Rattle.wit_items.specs.BorrowedItems.{declared_view};
ghost use Rattle.wit_links.specs.Links.{IsSeen, seen_on};

use std::alloc::AllocError;
use wit_items::inline_names::one_more;
use wit_items::items::Declared;
use wit_tree::tree::{Id, World, WorldSide};

/// The name of a declared item.
pub fn declared_name<'a>(declared: &Declared<'_, 'a>) -> Id<'a>
    ensures { result ≡ (about (declared_view declared.now)).id }
{
    match declared {
        Declared::Interface(interface) => interface.name,
        Declared::World(world) => world.name,
        Declared::Inline(inline) => inline.name,
    }
}

/// The world that a declared item is.
pub fn declared_world<'f, 'a>(declared: &Declared<'f, 'a>) -> &'f World<'a>
    requires { (about (declared_view declared.now)).is_world ≡ true }
    ensures { declared_view declared.now ≡ TheWorld result.now }
{
    match declared {
        Declared::World(world) => *world,
        Declared::Interface(_) | Declared::Inline(_) => unreachable!(),
    }
}

/// What occurred on the sides of a world.
#[derive(Clone, Copy)]
pub struct Seen {
    /// How many functions.
    pub functions: usize,
    /// How many of the interfaces that are written among the imports.
    pub imported: usize,
    /// How many of those that are written among the exports.
    pub exported: usize,
}

impl Seen {
    /// Nothing.
    pub fn none() -> Seen
        ensures { IsSeen [] result }
    {
        Seen {
            functions: 0,
            imported: 0,
            exported: 0,
        }
    }

    /// How many of the interfaces that are written on a side.
    pub fn on(self, side: WorldSide) -> usize
        ensures { result ≡ seen_on side self }
    {
        match side {
            WorldSide::Imported => self.imported,
            WorldSide::Exported => self.exported,
        }
    }

    /// With one function more.
    pub fn with_function(self) -> Result<Seen, AllocError>
        ensures { IfOk result (λ seen. (xs : _) (fn : _) → IsSeen xs self → IsSeen (xs ++ SideFunction fn ∷ []) seen) }
    {
        let functions = one_more(self.functions)?;
        Ok(Seen {
            functions,
            imported: self.imported,
            exported: self.exported,
        })
    }

    /// With one interface more that is written on a side.
    pub fn with_inline(self, side: WorldSide) -> Result<Seen, AllocError>
        ensures { IfOk result (λ seen. (xs : _) (x : TheExtern) (name : _) (items : _) → x.side ≡ side → IsSeen xs self → IsSeen (xs ++ SideInline x name items ∷ []) seen) }
    {
        let written = one_more(self.on(side))?;
        match side {
            WorldSide::Imported => Ok(Seen {
                functions: self.functions,
                imported: written,
                exported: self.exported,
            }),
            WorldSide::Exported => Ok(Seen {
                functions: self.functions,
                imported: self.imported,
                exported: written,
            }),
        }
    }
}
