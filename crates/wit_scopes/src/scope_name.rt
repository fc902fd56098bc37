//! The names of a scope: those that it uses, and its definitions.
ghost use Rattle.std.specs.Prelude.{◌≡◌, ◌++◌, map, IfOk, OnOk, List};
ghost use Rattle.std.specs.List.{flat_map};
ghost use Rattle.std.specs.Option.{unwrap_or};
ghost use Rattle.wit_syntax.specs.Source.{Used, local_id as the_local_id};
ghost use Rattle.wit_syntax.specs.ScopeTables.{defined};
ghost use Rattle.wit_syntax.specs.Address.{Address};
ghost use Rattle.wit_scopes.specs.BorrowedNames.{source_view, name_view, definition_view, own_use, IsPlaced, AreNamesPlaced};

use std::alloc::{AllocError, Global};
use wit_tree::tree::{Attribute, Id, PackageName, TypeDef, UseName};

/// The interface that names are used from.
#[derive(Clone, Copy)]
pub enum Source<'t, 'a> {
    /// The declared one of this name.
    Declared(Id<'a>),
    /// The one of this name in another package, and its place.
    Foreign {
        place: usize,
        package: &'t PackageName<'a>,
        name: Id<'a>,
    },
}

/// A used name, the interface that it comes from, and the attributes of its `use`.
#[derive(Clone, Copy)]
pub struct UsedName<'t, 'a> {
    pub from: Source<'t, 'a>,
    pub attributes: &'t [Attribute<'a>],
    pub name: &'t UseName<'a>,
}

/// What is lent as a definition.
#[derive(Clone, Copy)]
pub struct Lent<D> {
    pub definition: D,
}

/// A definition.
pub type DefinedName<'t, 'a> = Lent<&'t TypeDef<'a>>;

/// What a name of a scope is.
#[derive(Clone, Copy)]
pub enum Named<U, D> {
    /// One that is used from an interface.
    Used(U),
    /// A definition.
    Defined(D),
}

/// A name of a scope.
///
/// A list of them is one of [`Named`]s, which know nothing of the trees that they borrow from: so to go
/// over it costs no comparison of these trees' types.
pub type ScopeName<'t, 'a> = Named<UsedName<'t, 'a>, DefinedName<'t, 'a>>;

/// Adds the names that are used from an interface, by a `use` with these attributes.
pub fn add_used_names<'t, 'a>(
    names: &mut Vec<ScopeName<'t, 'a>>,
    from: &Source<'t, 'a>,
    attributes: &'t [Attribute<'a>],
    used: &'t [UseName<'a>],
) -> Result<(), AllocError>
    ensures names { OnOk result (map name_view names.new.items ≡ map name_view names.old.items ++ map (Used (source_view from.now) attributes.now) used.now) }
    ensures placed { OnOk result ((prefix : List Address) → IsPlaced prefix from.now → AreNamesPlaced prefix names.old.items → AreNamesPlaced prefix names.new.items) }
{
    for name in used {
        let from = *from;
        names.push(ScopeName::Used(UsedName {
            from,
            attributes,
            name,
        }))?;
    }
    Ok(())
}

/// The used ones of some names, in their order.
pub fn used_names<'t, 'a>(
    alloc: Global,
    names: &[ScopeName<'t, 'a>],
) -> Result<Vec<UsedName<'t, 'a>>, AllocError>
    ensures { IfOk result (λ uses. uses.items ≡ flat_map own_use names.now) }
{
    let mut uses = Vec::new(alloc);
    for name in names {
        if let ScopeName::Used(name) = name {
            uses.push(*name)?;
        }
    }
    Ok(uses)
}

/// The definitions of some names, of which so many are used ones.
pub(crate) fn definitions<'t, 'a>(
    alloc: Global,
    names: &[ScopeName<'t, 'a>],
    used: usize,
) -> Result<Vec<DefinedName<'t, 'a>>, AllocError>
    ensures { IfOk result (λ definitions. map definition_view definitions.items ≡ defined (map name_view names.now)) }
{
    let mut definitions = Vec::with_capacity(alloc, names.len().saturating_sub(used))?;
    for name in names {
        if let ScopeName::Defined(name) = name {
            definitions.push(*name)?;
        }
    }
    Ok(definitions)
}

/// The name that a used one goes by: that after `as`, or its own.
pub fn local_of<'a>(name: &UseName<'a>) -> Id<'a>
    ensures { result ≡ unwrap_or name.now.as_ name.now.name }
{
    name.as_.unwrap_or(name.name)
}

/// The name that a name of a scope goes by.
pub fn local_id<'a>(name: &ScopeName<'_, 'a>) -> Id<'a>
    ensures { result ≡ the_local_id (name_view name.now) }
{
    match name {
        ScopeName::Used(used) => local_of(used.name),
        ScopeName::Defined(defined) => defined.definition.name,
    }
}
