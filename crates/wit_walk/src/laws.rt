//! What holds of the first fault of files.
ghost use Rattle.wit_walk.specs.Laws.{FaultlessIsLegal, FirstIsBroken, LegalIsFaultless, LegalOrFirst, OneFirst};

/// Files come to one fault, or to none: two first faults are equal, and files that have one are not
/// without a fault.
pub fn one_first()
    ensures { OneFirst }
{}

/// The first fault of files is one that a broken rule states: with its number and its place.
pub fn first_is_broken()
    ensures { FirstIsBroken }
{}

/// Files without a fault are legal: no rule is broken in them.
pub fn faultless_is_legal()
    ensures { FaultlessIsLegal }
{}

/// And files that are legal have no fault.
pub fn legal_is_faultless()
    ensures { LegalIsFaultless }
{}

/// Files are legal, or they have a first fault.
pub fn legal_or_first()
    ensures { LegalOrFirst }
{}
