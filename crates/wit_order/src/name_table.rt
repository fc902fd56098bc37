//! The kinds of tables of names, each with the names that it needs.
ghost use Rattle.std.specs.Prelude.{◌≡◌, ◌<◌, Some, length, slice_get};
ghost use Rattle.std.specs.Map.{keys_of};
ghost use Rattle.wit_graph.specs.Table.{Entry, AreNeedsAt, place_of, rows};

use indexmap::IndexMap;
use wit_maps::Table;
use wit_type_tree::leaves::Id;

/// A table of names, each with the names that it needs: an [`IndexMap`], as the resolver that this one
/// follows has, or a [`Table`], as packages have.
pub trait NameTable<'a> {
    ghost use Rattle.std.specs.Prelude.{List};

    ghost entries: { Self → List Entry };

    /// How many names there are.
    fn count(&self) -> usize
        ensures { result ≡ length (rows (entries self.now)) };

    /// The place of a name.
    fn place(&self, name: &str) -> Option<usize>
        ensures { result ≡ place_of (rows (entries self.now)) name.now };

    /// The name at a place, as the table has it.
    fn key(&self, place: usize) -> &'a str
        requires { place < length (rows (entries self.now)) }
        ensures { slice_get (keys_of (entries self.now)) place ≡ Some result };

    /// The names that the name at a place needs.
    fn needs(&self, place: usize) -> &[Id<'a>]
        requires { place < length (rows (entries self.now)) }
        ensures { AreNeedsAt (rows (entries self.now)) place result.now };
}

impl<'a> NameTable<'a> for IndexMap<&'a str, Vec<Id<'a>>> {
    ghost entries = { λ table. table.entries };

    fn count(&self) -> usize {
        self.len()
    }

    fn place(&self, name: &str) -> Option<usize> {
        self.get_index_of(name)
    }

    fn key(&self, place: usize) -> &'a str {
        let (name, _) = self.get_index(place).unwrap();
        *name
    }

    fn needs(&self, place: usize) -> &[Id<'a>] {
        let (_, ids) = self.get_index(place).unwrap();
        ids.as_slice()
    }
}

impl<'a> NameTable<'a> for Table<&'a str, Vec<Id<'a>>> {
    ghost entries = { λ table. table };

    fn count(&self) -> usize {
        self.len()
    }

    fn place(&self, name: &str) -> Option<usize> {
        self.get_index_of(name)
    }

    fn key(&self, place: usize) -> &'a str {
        let (name, _) = self.get_index(place).unwrap();
        *name
    }

    fn needs(&self, place: usize) -> &[Id<'a>] {
        let (_, ids) = self.get_index(place).unwrap();
        ids.as_slice()
    }
}
