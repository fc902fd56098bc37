//! What is on the sides of a world by its name: what it imports, and what it exports.
ghost use Rattle.std.specs.Prelude.{◌≡◌, ◌++◌, [], ◌↔◌, IfErr, IfOk, IsTrue, OnErr, OnOk};
ghost use Rattle.wit_names.specs.Mangled.{is_mangled};
ghost use Rattle.wit_syntax.specs.Broken.{Refused};
ghost use Rattle.wit_refusals.specs.NameScopes.{IsDefinedAgain, AreUsed};
ghost use Rattle.wit_refusals.specs.KeyedNames.{HasName};
ghost use Rattle.wit_sides.specs.SideNames.{only_on, defined_on};

use std::alloc::{AllocError, Global};
use wit_refusals::NameScope;
use wit_tree::tree::WorldSide;
use wit_tree::{ParseResult, Span};

/// The names on both sides of a world, each in the order in which they were defined. Those of an
/// interface are as what a world imports.
#[derive(Drop)]
pub struct Sides {
    pub imports: NameScope,
    pub exports: NameScope,
}

impl Sides {
    ghost use Rattle.wit_tree.specs.declared.tree.WorldSide.{WorldSide};
    ghost use Rattle.wit_sides.specs.declared.sides.Sides.{Sides};

    /// No name on either side.
    pub fn new(alloc: Global) -> Sides
        ensures { (s : WorldSide) → defined_on s result ≡ [] }
    {
        Sides {
            imports: NameScope::new(alloc),
            exports: NameScope::new(alloc),
        }
    }

    /// Whether a name on a side is spelled like this.
    ///
    /// The error is a failed allocation.
    pub fn has(&self, side: WorldSide, name: &str) -> Result<bool, AllocError>
        requires { IsTrue (is_mangled name.now) }
        ensures { IfOk result (λ found. IsTrue found ↔ HasName (defined_on side self.now) name.now) }
    {
        match side {
            WorldSide::Imported => self.imports.has(name),
            WorldSide::Exported => self.exports.has(name),
        }
    }

    /// Defines a name on a side, after the others.
    ///
    /// Refused under E17, at the span, where an earlier name of the side has its folded key, and for
    /// a failed allocation. Then both sides are as they were.
    pub fn define(&mut self, side: WorldSide, name: &str, span: Span) -> ParseResult<()>
        requires { IsTrue (is_mangled name.now) }
        ensures defined { OnOk result ((s : WorldSide) → defined_on s self.new ≡ defined_on s self.old ++ only_on s side (name.now, span)) }
        ensures free { OnOk result (AreUsed (defined_on side self.old) name.now → ⊥) }
        ensures refused { IfErr result (Refused (IsDefinedAgain (defined_on side self.old) name.now span)) }
        ensures unchanged { OnErr result ((s : WorldSide) → defined_on s self.new ≡ defined_on s self.old) }
    {
        match side {
            WorldSide::Imported => self.imports.define(name, span),
            WorldSide::Exported => self.exports.define(name, span),
        }
    }
}
