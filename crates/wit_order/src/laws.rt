//! What holds of every table.
ghost use Rattle.wit_graph.specs.Laws.{OneAnswerLaw, SameEdgesLaw};

/// Every table is ordered, in one order, or refused, and none is both.
pub fn one_answer()
    ensures { OneAnswerLaw }
{}

/// Two tables with the same names in the same order, where each name needs the same set of names
/// in both, are both ordered or both refused, and their orders are equal. So a name that is
/// needed twice, or needed names in another order, change nothing.
pub fn same_edges()
    ensures { SameEdgesLaw }
{}
