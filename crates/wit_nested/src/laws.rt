//! What holds of all packages of a group.
ghost use Rattle.std.specs.Prelude.{◌≡◌, List};
ghost use Rattle.std.specs.List.{AllZip};
ghost use Rattle.wit_tree.specs.declared.tree.NestedPackage.{NestedPackage as TheNested};
ghost use Rattle.wit_tree.specs.declared.tree.PackageFile.{PackageFile as TheFile};
ghost use Rattle.wit_model.specs.declared.unresolved.UnresolvedPackage.{UnresolvedPackage as ThePackage};
ghost use Rattle.wit_arena.specs.Faithful.{IsMadeOf};
ghost use Rattle.wit_nested.specs.Nested.{IsMadeByNested};

/// Two groups of the same files have equal main packages and equal nested ones, the orders of their maps
/// included.
pub fn one_group()
    ensures main { (files : List TheFile) (p q : ThePackage) → IsMadeOf files p → IsMadeOf files q → p ≡ q }
    ensures nested { (ns : List TheNested) (ps qs : List ThePackage) → AllZip IsMadeByNested ns ps → AllZip IsMadeByNested ns qs → ps ≡ qs }
{}
