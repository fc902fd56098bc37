//! What holds of the JSON of all packages that legal files make.
//!
//! `wit_json` says of each group that no object in its JSON has a key twice, and that its JSON says it, if
//! its maps have no key twice and it is plain. Here it is that each package that legal files make has such
//! maps, and that each group that is read from text is plain.
ghost use Rattle.std.specs.Prelude.{All};
ghost use Rattle.wit_json_laws.specs.Laws.{AreAlike, GroupsHaveOwnMaps, HasOwnJson, HaveOneJson, IsPlainWhereMade, IsPlainWhereRead, IsStatedByJson, PackagesHaveOwnMaps, SpelledIsPlain};

use wit_groups::UnresolvedPackageGroup;
use wit_model::UnresolvedPackage;
use wit_parser::laws::ids_are_within;

/// No map of a package that legal files make has a key twice: no name of an interface, no import and no
/// export of a world, no other package and no item of one. So it is in each package of a group.
pub fn maps_have_own_keys()
    ensures packages { PackagesHaveOwnMaps }
    ensures groups { GroupsHaveOwnMaps }
{}

/// In each tree that a source spells, no name has a colon or an `@`, and each version is one by SemVer 2.0.0.
pub fn spelled_is_plain()
    ensures { SpelledIsPlain }
{}

/// A package that legal files make is plain if their trees are: names and versions are as those that a
/// source spells. A caller of `Resolver` may make other trees.
pub fn packages_are_plain(package: &UnresolvedPackage)
    ensures { IsPlainWhereMade «package».now }
{
    // The count is known to fit 64 bits once it is read, and so are the ids of interfaces.
    let _interfaces = package.interfaces.len();
    ids_are_within(package);
}

/// Each of these packages is plain where legal files of plain trees make it.
fn each_is_plain(packages: &[UnresolvedPackage])
    ensures { All IsPlainWhereMade packages.now }
{
    for inner in packages {
        packages_are_plain(inner);
    }
}

/// A group that is read from text is plain.
pub fn groups_are_plain(group: &UnresolvedPackageGroup)
    ensures { IsPlainWhereRead group.now }
{
    packages_are_plain(&group.main);
    each_is_plain(group.nested.as_slice());
}

/// No object in the JSON of a group that is read from text has a key twice, at any depth.
pub fn keys_are_unique(group: &UnresolvedPackageGroup)
    ensures { HasOwnJson group.now }
{
    groups_are_plain(group);
}

/// Two groups that are read from text have one JSON exactly if all of them but the texts of their sources
/// is equal. Numbers in the JSON are those of `group_json`, of at most 20 digits.
pub fn json_determines(first: &UnresolvedPackageGroup, second: &UnresolvedPackageGroup)
    ensures gives { IsStatedByJson first.now second.now }
    ensures alike { AreAlike first.now second.now → HaveOneJson first.now second.now }
{
    groups_are_plain(first);
    groups_are_plain(second);
}
