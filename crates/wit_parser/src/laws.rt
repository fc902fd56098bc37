//! What holds of all resolved packages, and of the files that make them.
ghost use Rattle.std.specs.Prelude.{◌≡◌, List, [], ◌∷◌};
ghost use Rattle.wit_tree.specs.declared.tree.PackageFile.{PackageFile as TheFile};
ghost use Rattle.wit_tree.specs.declared.tree.SourceFile.{SourceFile as TheSource};
ghost use Rattle.wit_first.specs.HeaderFaults.{push_fault};
ghost use Rattle.wit_first.specs.Laws.{Agrees};
ghost use Rattle.wit_files.specs.Visits.{all_visits};
ghost use Rattle.wit_syntax.specs.Splitting.{IsJoined, IsSplit};
ghost use Rattle.wit_syntax.specs.Broken.{IsLegal};
ghost use Rattle.wit_types.specs.InnerTypes.{IsBackward};
ghost use Rattle.wit_arena.specs.Faithful.{IsFaithful, HasArena};
ghost use Rattle.wit_arena.specs.SplitOccurrences.{HaveSameOccurrences, HaveSamePackages};
ghost use Rattle.wit_arena.specs.Made.{Makes};
ghost use Rattle.wit_parser.specs.Ids.{AreIdsWithin};
ghost use Rattle.wit_parser.specs.Marks.{HaveMarks};
ghost use Rattle.wit_parser.specs.OnePackage.{MakeOne};
ghost use Rattle.wit_parser.specs.Stray.{IsStray};

use wit_model::UnresolvedPackage;

/// `Function::item_name` can be called on each function of a package that files make: its name has
/// the mark of its kind.
pub fn functions_have_marks(package: &UnresolvedPackage)
    ensures { (files : List TheFile) → Makes files «package».now → HaveMarks «package».now }
{}

/// Each id of a package that legal files make is the place of an entry: `Arena::get` can be called with it.
pub fn ids_are_within(package: &UnresolvedPackage)
    ensures { (files : List TheFile) → IsLegal files → Makes files «package».now → AreIdsWithin «package».now }
{}

/// The ids of a package that legal files make point backward, as `is_backward` says it:
/// `Function::find_futures_and_streams` can be called over its types.
pub fn ids_point_backward(package: &UnresolvedPackage)
    ensures { (files : List TheFile) → IsLegal files → Makes files «package».now → IsBackward «package».now.types }
{}

/// What else `Resolver::resolve` says of a package follows from its being the one that legal files make:
/// its arena of types is the list of first occurrences in the files, and each written type has one at its
/// position, with the tree that lexical scope gives it.
pub fn packages_are_faithful(package: &UnresolvedPackage)
    ensures arena { (files : List TheFile) → IsLegal files → Makes files «package».now → HasArena files «package».now }
    ensures faithful { (files : List TheFile) → IsLegal files → Makes files «package».now → IsFaithful files «package».now }
{}

/// Where files have no `use` at the top and exactly one header, it does not matter that they are split.
///
/// The one file with that header and all their declarations, in order, has the same visits. It is legal
/// exactly if they are, and has the same scopes, trees, orders and first occurrences of types. A package
/// that it makes is one that they make, and where they are legal the only one.
pub fn splitting()
    ensures visits { (files : List TheFile) (one : TheFile) → IsJoined files one → all_visits files ≡ all_visits (one ∷ []) }
    ensures same { (files : List TheFile) (one : TheFile) → IsJoined files one → IsSplit files (one ∷ []) }
    ensures occurrences { (files : List TheFile) (one : TheFile) → IsJoined files one → HaveSameOccurrences files (one ∷ []) }
    ensures packages { (files : List TheFile) (one : TheFile) → IsJoined files one → HaveSamePackages files (one ∷ []) }
    ensures equal { (files : List TheFile) (one : TheFile) → IsJoined files one → MakeOne files (one ∷ []) }
{}

/// Legal files make one package: two that they make are equal in all that a package holds, and so in
/// the orders of its maps.
pub fn one_package()
    ensures { (files : List TheFile) → MakeOne files files }
{}

/// The first fault of a source that [`Resolver::push`](crate::Resolver::push) reports breaks one of
/// E1, E2 and E3; and where there is none, the source breaks none of them.
pub fn pushes_agree()
    ensures { (files : List TheFile) (s : TheSource) → Agrees (push_fault files s) (IsStray files s) }
{}
