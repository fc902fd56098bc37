//! The files of a package, by their names, with the entries of other packages' items.
ghost use Rattle.std.specs.Prelude.{◌≡◌, ◌<◌, Some, length, map, slice_get};
ghost use Rattle.wit_syntax.specs.Source.{leads, all_items, is_world as is_the_world};
ghost use Rattle.wit_top_names.specs.Tops.{target_view};
ghost use Rattle.wit_files.specs.FileNames.{found_at, top_at};
ghost use Rattle.wit_syntax.specs.Foreign.{foreign_items};
ghost use Rattle.wit_arena.specs.Whole.{foreign_entry};

use std::marker::Model;
use wit_files::{FileNames, Found};
use wit_model::AstItem as Entry;
use wit_top_names::Target;
use wit_tree::tree::UsePath;

/// The files of a package, by their names, with the entries of other packages' items.
///
/// Contracts see the list of the files.
pub struct Files<'f, 'a, 'n, 'e> {
    names: &'n FileNames<'f, 'a>,
    entries: &'e [Entry],
}

impl Drop for Files<'_, '_, '_, '_> {
    fn drop(self) {
        let Files {
            names: _,
            entries: _,
        } = self;
    }
}

impl<'f, 'a, 'n, 'e> Model for Files<'f, 'a, 'n, 'e> {
    ghost use Rattle.std.specs.Prelude.{◌≡◌, List, [], map};
    ghost use Rattle.wit_tree.specs.declared.tree.PackageFile.{PackageFile};
    ghost use Rattle.wit_syntax.specs.Foreign.{foreign_items};
    ghost use Rattle.wit_arena.specs.Whole.{foreign_entry};
    ghost use Rattle.wit_type_tree.specs.contracts.types.Type as written;
    ghost use Rattle.std.specs.Coded.{codes};
    ghost use mir.Syntax.{named};

    ghost Value = { List PackageFile };

    ghost coded = { Prim.hlevel (codes, (written.the_row (record { mir = named 0; lft = [] })).coded) };

    ghost view = { λ f. f.names.now };

    ghost invariant = { λ f. f.entries.now ≡ map (foreign_entry f.names.now) (foreign_items f.names.now) };
}

impl<'f, 'a, 'n, 'e> Files<'f, 'a, 'n, 'e> {
    /// The files with these names, where these are the entries of other packages' items.
    pub fn of(names: &'n FileNames<'f, 'a>, entries: &'e [Entry]) -> Self
        requires { entries.now ≡ map (foreign_entry names.now) (foreign_items names.now) }
        ensures { result ≡ names.now }
    {
        Files { names, entries }
    }

    /// The entries of other packages' items, in the order of their first visits.
    pub fn entries(&self) -> &[Entry]
        ensures { result.now ≡ map (foreign_entry self.now) (foreign_items self.now) }
    {
        self.entries
    }

    /// Where a path in an item of the file at a place leads.
    pub fn target(&self, file: usize, path: &'f UsePath<'a>) -> Target<'f, 'a>
        requires within { file < length self.now }
        ensures { target_view result ≡ leads (top_at self.now file) path.now }
    {
        self.names.target(file, path)
    }

    /// What is where a path leads; none where no item has the name, or no path of the files leads
    /// to that item of another package.
    pub fn found(&self, target: Target<'f, 'a>) -> Option<Found>
        ensures { result ≡ found_at self.now (target_view target.entry) }
    {
        self.names.found(target)
    }

    /// Whether the item at a place among all of them is a world.
    pub fn is_world(&self, place: usize) -> bool
        requires within { place < length (all_items self.now) }
        ensures { slice_get (map is_the_world (all_items self.now)) place ≡ Some result }
    {
        self.names.is_world(place)
    }
}
