//! The names of a scope, which differ once folded.
ghost use Rattle.std.specs.Prelude.{◌≡◌, ◌++◌, ◌∷◌, [], ◌↔◌, ℕ, IfErr, IfOk, IsTrue, OnErr, OnOk, Some, codes, string_bytes};
ghost use Rattle.wit_names.specs.Mangled.{is_mangled};
ghost use Rattle.wit_names.specs.Setter.{getter_of, is_setter};
ghost use Rattle.wit_syntax.specs.Broken.{Refused};
ghost use Rattle.wit_refusals.specs.NameScopes.{IsDefinedAgain, IsFirstLoneSetter, IsLoneSetter, AreUsed};
ghost use Rattle.wit_refusals.specs.KeyedNames.{HasName, IsDefinedAgainAt, IsKeyed, IsWithoutGetter, names_of, spelled, spelling};

use crate::getters::is_getter_name;
use crate::refusal::refuse_in;
use crate::repeat_words::clash;
use std::alloc::{AllocError, Global};
use std::marker::Model;
use wit_maps::Table;
use wit_names::{Folded, getter_for_setter, is_setter};
use wit_type_tree::{ParseError, ParseResult};
use wit_values::{Span, Text};

/// A name of a scope, where it is not spelled as its key, and where it is written.
#[derive(Debug, Drop)]
struct DefinedName {
    name: Option<Text>,
    span: Span,
}

impl DefinedName {
    /// The name, which is at this key.
    fn spelled<'s>(&'s self, key: &'s Folded) -> &'s str
        ensures { result.now ≡ spelled key.now self.now }
    {
        match &self.name {
            Some(name) => name.as_str(),
            None => key.as_str(),
        }
    }
}

/// The names of a scope, an interface or one side of a world, which contracts see as a list of
/// names with their spans, in the order in which they were defined.
///
/// No two of them have one folded key.
pub struct NameScope {
    alloc: Global,
    names: Table<Folded, DefinedName>,
}

impl Drop for NameScope {
    fn drop(self) {
        let NameScope { alloc: _, names: _ } = self;
    }
}

impl Model for NameScope {
    ghost use Rattle.std.specs.Prelude.{List};
    ghost use Rattle.wit_refusals.specs.NameScopes.{Name};
    ghost use Rattle.wit_refusals.specs.KeyedNames.{IsKeyed, names_of};

    ghost Value = { List Name };

    ghost view = { λ s. names_of s.names };

    ghost invariant = { λ s. IsKeyed s.names };
}

/// A name, where it is not spelled as its key.
fn other_spelling(alloc: Global, key: &Folded, name: &str) -> Result<Option<Text>, AllocError>
    ensures { IfOk result (λ other. spelling key.now other ≡ name.now) }
{
    if key.as_str() == name {
        Ok(None)
    } else {
        Ok(Some(Text::from_str(alloc, name)?))
    }
}

/// The refusal of a name whose key that at a place has.
fn defined_again(
    alloc: Global,
    names: &Table<Folded, DefinedName>,
    place: usize,
    name: &str,
    span: Span,
) -> ParseError
    ensures { IsDefinedAgainAt names.now place name.now span result }
{
    let words = match names.get_index(place) {
        Some((key, earlier)) => clash(alloc, "name", earlier.spelled(key), name),
        None => clash(alloc, "name", name, name),
    };
    refuse_in(17, span, words)
}

/// Whether a name is spelled like this.
fn has_name(
    alloc: Global,
    names: &Table<Folded, DefinedName>,
    name: &str,
) -> Result<bool, AllocError>
    requires keyed { IsKeyed names.now }
    requires mangled { IsTrue (is_mangled name.now) }
    ensures { IfOk result (λ found. IsTrue found ↔ HasName (names_of names.now) name.now) }
{
    let key = Folded::new(alloc, name)?;
    match names.get(&key) {
        Some(found) => Ok(found.spelled(&key) == name),
        None => Ok(false),
    }
}

/// Whether the name at a place is that of a setter's getter.
fn is_getter_at(names: &Table<Folded, DefinedName>, place: usize, setter: &str) -> bool
    ensures { IsTrue result → HasName (names_of names.now) (getter_of setter.now) }
{
    match names.get_index(place) {
        Some((key, found)) => is_getter_name(found.spelled(key), setter),
        None => false,
    }
}

/// The words for a setter whose getter is missing.
fn lone_setter(alloc: Global, setter: &str, getter: &str) -> Result<String, AllocError>
    ensures { IfOk result (λ words. string_bytes words ≡ codes "setter `" ++ (setter.now ++ (codes "` has no corresponding getter `" ++ (getter.now ++ codes "`")))) }
{
    format!(in alloc; "setter `{setter}` has no corresponding getter `{getter}`")
}

/// Refuses a setter at a place without the getter of its spelling, which mostly comes before it.
fn check_setter(
    alloc: Global,
    names: &Table<Folded, DefinedName>,
    place: usize,
    name: &str,
    span: Span,
) -> ParseResult<()>
    requires { IsKeyed names.now }
    ensures paired { OnOk result (IsTrue (is_setter name.now) → HasName (names_of names.now) (getter_of name.now)) }
    ensures refused { IfErr result (Refused (IsWithoutGetter (names_of names.now) name.now span)) }
{
    if !is_setter(name) {
        return Ok(());
    }
    if is_getter_at(names, place.saturating_sub(1), name) {
        return Ok(());
    }
    let getter = getter_for_setter(alloc, name)?;
    if has_name(alloc, names, getter.as_str())? {
        return Ok(());
    }
    let words = lone_setter(alloc, name, getter.as_str());
    Err(refuse_in(18, span, words))
}

impl NameScope {
    /// No name.
    pub fn new(alloc: Global) -> NameScope
        ensures { result ≡ [] }
    {
        NameScope {
            alloc,
            names: Table::new(alloc),
        }
    }

    /// Defines a name after the others.
    ///
    /// Refused under E17, at the span, where an earlier name has its folded key, and for want of
    /// memory. Then the scope is as it was.
    pub fn define(&mut self, name: &str, span: Span) -> ParseResult<()>
        requires { IsTrue (is_mangled name.now) }
        ensures defined { OnOk result (self.new ≡ self.old ++ (name.now, span) ∷ []) }
        ensures free { OnOk result (AreUsed self.old name.now → ⊥) }
        ensures refused { IfErr result (Refused (IsDefinedAgain self.old name.now span)) }
        ensures unchanged { OnErr result (self.new ≡ self.old) }
    {
        let key = Folded::new(self.alloc, name)?;
        let other = other_spelling(self.alloc, &key, name)?;
        match self.names.put_new(key, DefinedName { name: other, span })? {
            Some(place) => Err(defined_again(self.alloc, &self.names, place, name, span)),
            None => Ok(()),
        }
    }

    /// Whether a name is spelled like this.
    ///
    /// The error is a failed allocation.
    pub fn has(&self, name: &str) -> Result<bool, AllocError>
        requires { IsTrue (is_mangled name.now) }
        ensures { IfOk result (λ found. IsTrue found ↔ HasName self.now name.now) }
    {
        has_name(self.alloc, &self.names, name)
    }

    /// Refuses the first setter without the getter of its exact spelling.
    ///
    /// The error is E18 at the setter, or a failed allocation.
    pub fn check_setters(&self) -> ParseResult<()>
        ensures paired { OnOk result ((i : ℕ) → IsLoneSetter self.now i → ⊥) }
        ensures refused { IfErr result (Refused (IsFirstLoneSetter self.now)) }
    {
        for place in 0..self.names.len() {
            if let Some((key, name)) = self.names.get_index(place) {
                check_setter(self.alloc, &self.names, place, name.spelled(key), name.span)?;
            }
        }
        Ok(())
    }
}
