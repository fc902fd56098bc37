//! What holds of the grammar: a source spells the tree that is read of it by one token, and no other.
ghost use Rattle.wit_grammar.specs.Laws.{FaultsLieWithin, OneTree, ReadIsSpelled, SpelledIsRead, StoppedSpellsNone, TreeOrFault};

/// A tree that is read of a source by one token is spelled by it, from its beginning to its end.
pub fn read_is_spelled()
    ensures { ReadIsSpelled }
{}

/// A tree that a source spells is the one that is read of it: reading by one token refuses no source that spells a tree.
pub fn spelled_is_read()
    ensures { SpelledIsRead }
{}

/// No source spells two trees.
pub fn one_tree()
    ensures { OneTree }
{}

/// A source of which reading stops at a fault spells no tree.
pub fn stopped_spells_none()
    ensures { StoppedSpellsNone }
{}

/// A source spells a tree, or reading it stops at a fault: one of the two, whatever the source, so the steps of reading suffice.
pub fn tree_or_fault()
    ensures { TreeOrFault }
{}

/// The fault at which reading a source stops lies within the source.
pub fn faults_lie_within()
    ensures { FaultsLieWithin }
{}
