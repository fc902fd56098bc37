//! The table of other packages' items.
ghost use Rattle.std.specs.Prelude.{◌≡◌, ◌++◌, ◌∷◌, [], IfOk, OnOk, List, length, cond, nat_lt, if◌then◌else◌};
ghost use Rattle.wit_model.specs.declared.ast_item.AstItem.TheVariants as entry;
ghost use Rattle.wit_syntax.specs.Foreign.{ForeignVisit as Visit};
ghost use Rattle.wit_files.specs.ForeignPaths.{foreign_view};
ghost use Rattle.wit_foreign.specs.Growing.{AreDepSpansOf, AreDeps, AreDepsOf};

use crate::packages::{Packages, add_visit_in};
use std::alloc::{AllocError, Global};
use wit_files::ForeignVisit;
use wit_maps::Table;
use wit_model::AstItem;
use wit_notes::{package_name, stated_stability};
use wit_types::{Arena, InterfacePlace, WorldPlace};
use wit_values::{Row, Span, pair_with};

/// The items of the visits so far.
#[derive(Drop)]
struct Deps {
    packages: Packages,
    /// For each package, where a visit first names it.
    spans: Row<Span>,
    /// The places of the interfaces.
    interfaces: Arena<(), InterfacePlace>,
    /// The places of the worlds.
    worlds: Arena<(), WorldPlace>,
}

impl Deps {
    /// Those of no visit.
    fn new(alloc: Global) -> Deps
        ensures { AreDeps [] result }
    {
        Deps {
            packages: Table::new(alloc),
            spans: Row::new(alloc),
            interfaces: Arena::new(alloc),
            worlds: Arena::new(alloc),
        }
    }

    /// The entry that the item of a visit gets if nothing has visited it yet.
    fn next_entry(&self, wants_world: bool) -> AstItem
        ensures { result ≡ if wants_world then entry.World (length self.now.worlds) else entry.Interface (length self.now.interfaces) }
    {
        if wants_world {
            AstItem::World(self.worlds.next_id())
        } else {
            AstItem::Interface(self.interfaces.next_id())
        }
    }

    /// Counts an item that is visited for the first time.
    fn count(&mut self, wants_world: bool) -> Result<(), AllocError>
        ensures packages { OnOk result (self.new.packages ≡ self.old.packages) }
        ensures spans { OnOk result (self.new.spans ≡ self.old.spans) }
        ensures interfaces { OnOk result (self.new.interfaces ≡ self.old.interfaces ++ cond wants_world [] (tt ∷ [])) }
        ensures worlds { OnOk result (self.new.worlds ≡ self.old.worlds ++ cond wants_world (tt ∷ []) []) }
    {
        if wants_world {
            self.worlds.alloc(())?;
        } else {
            self.interfaces.alloc(())?;
        }
        Ok(())
    }

    /// Notes where a visit names its package, if that has no span yet.
    fn note_span(&mut self, span: Span) -> Result<(), AllocError>
        ensures spans { OnOk result (self.new.spans ≡ self.old.spans ++ cond (nat_lt (length self.old.spans) (length self.old.packages)) (span ∷ []) []) }
        ensures packages { OnOk result (self.new.packages ≡ self.old.packages) }
        ensures interfaces { OnOk result (self.new.interfaces ≡ self.old.interfaces) }
        ensures worlds { OnOk result (self.new.worlds ≡ self.old.worlds) }
    {
        if self.spans.len() < self.packages.len() {
            self.spans.push(span)?;
        }
        Ok(())
    }

    /// Adds a visit.
    fn add_visit(&mut self, alloc: Global, visit: &ForeignVisit<'_, '_>) -> Result<(), AllocError>
        ensures { OnOk result ((vs : List Visit) → AreDeps vs self.old → AreDeps (vs ++ foreign_view visit.now ∷ []) self.new) }
    {
        let key = package_name(alloc, visit.package)?;
        let as_stated = stated_stability(alloc, visit.attributes);
        let (package, stability) = pair_with(key, as_stated)?;
        let entry = self.next_entry(visit.wants_world);
        let name = visit.name.name;
        let fresh = add_visit_in(alloc, &mut self.packages, package, name, entry, stability)?;
        self.note_span(visit.package.span)?;
        if fresh {
            self.count(visit.wants_world)?;
        }
        Ok(())
    }
}

/// The items of other packages that all visits of files lead to, and for each package where a visit
/// first names it.
///
/// The packages are in the order in which visits first name them. Each has the names of its items
/// in the order of their first visits: what each is, an interface or a world by its place among
/// those of other packages, and the stability that the attributes of every visit of it say, in
/// order. Whether these break a rule is not looked at. The error is a failed allocation.
pub fn foreign_deps(
    alloc: Global,
    visits: &[ForeignVisit<'_, '_>],
) -> Result<(Packages, Row<Span>), AllocError>
    ensures deps { IfOk result (λ found. AreDepsOf visits.now found.0) }
    ensures spans { IfOk result (λ found. AreDepSpansOf visits.now found.1) }
{
    let mut deps = Deps::new(alloc);
    for visit in visits {
        deps.add_visit(alloc, visit)?;
    }
    Ok((deps.packages.shrunk(), deps.spans))
}
