//! Interfaces that are on the sides of a world by their paths alone.
ghost use Rattle.std.specs.Prelude.{◌≡◌, ◌++◌, [], Contains, IfErr, IfOk, MatchBool, OnOk, OnErr, codes};
ghost use Rattle.std.specs.Map.{keys_of};
ghost use Rattle.wit_syntax.specs.Broken.{Refused};
ghost use Rattle.wit_syntax.specs.Words.{side_word};
ghost use Rattle.wit_sides.specs.SideNames.{only_on};
ghost use Rattle.wit_externs.specs.Clash.{IsPutAfter, linked_on};
ghost use Rattle.wit_syntax.specs.Fault.{linked_twice};

use std::alloc::{AllocError, Global};
use wit_maps::Table;
use wit_refusals::refusal::refuse;
use wit_tree::tree::WorldSide;
use wit_tree::{ParseResult, Span};

/// The places of the interfaces that a world imports and exports by their paths, without names of
/// their own, each in source order.
pub struct Links {
    imports: Table<usize, ()>,
    exports: Table<usize, ()>,
}

impl Drop for Links {
    fn drop(self) {
        let Links {
            imports: _,
            exports: _,
        } = self;
    }
}

/// Puts an interface after these, where it is none of them; says whether it was new.
fn insert(links: &mut Table<usize, ()>, interface: usize) -> Result<bool, AllocError>
    ensures as_stated { IfOk result (λ new. MatchBool new (IsPutAfter (keys_of links.old) (keys_of links.new) interface) (Contains (keys_of links.old) interface)) }
    ensures unchanged { OnErr result (keys_of links.new ≡ keys_of links.old) }
{
    Ok(links.insert(interface, ())?.is_none())
}

/// The words for an interface that is on a side again.
fn repeated(side: WorldSide) -> &'static str
    ensures { result.now ≡ codes "interface cannot be " ++ (side_word side ++ codes "ed more than once") }
{
    match side {
        WorldSide::Imported => "interface cannot be imported more than once",
        WorldSide::Exported => "interface cannot be exported more than once",
    }
}

impl Links {
    ghost use Rattle.wit_tree.specs.declared.tree.WorldSide.{WorldSide};

    /// No interface on either side.
    pub fn new(alloc: Global) -> Links
        ensures { (s : WorldSide) → linked_on s result ≡ [] }
    {
        Links {
            imports: Table::new(alloc),
            exports: Table::new(alloc),
        }
    }

    /// Puts the interface at a place on a side, after the others.
    ///
    /// Refused under E43, at the span, where the side has it, and under E45 if an allocation failed.
    pub fn define(
        &mut self,
        alloc: Global,
        side: WorldSide,
        interface: usize,
        span: Span,
    ) -> ParseResult<()>
        ensures defined { OnOk result ((s : WorldSide) → linked_on s self.new ≡ linked_on s self.old ++ only_on s side interface) }
        ensures free { OnOk result (Contains (linked_on side self.old) interface → ⊥) }
        ensures refused { IfErr result (Refused (λ f. Contains (linked_on side self.old) interface × (f ≡ linked_twice side span))) }
    {
        let new = match side {
            WorldSide::Imported => insert(&mut self.imports, interface)?,
            WorldSide::Exported => insert(&mut self.exports, interface)?,
        };
        if !new {
            return Err(refuse(alloc, 43, span, repeated(side)));
        }
        Ok(())
    }
}
