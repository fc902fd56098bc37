//! What holds of the first fault of a group, and of sources; and of the line of a refusal and its plain
//! values.
ghost use Rattle.wit_group_walk.specs.Laws.{FaultlessGroupIsLegal, FirstOfGroupIsBroken, LegalGroupIsFaultless, LegalGroupOrFirst, NamesAgree, OneFirstOfGroup};
ghost use Rattle.wit_group_walk.specs.Lines.{LineIsOfFault, OneLineOfFault, OneLineOfSources, OneLineOfText, OnePlain, TextIsOfFault};
ghost use Rattle.wit_group_walk.specs.Outputs.{OneJson, OneOutcome, OneOutput, OnePackageOfTrees, OneSourcesOutput};
ghost use Rattle.wit_group_walk.specs.SourceLaws.{FaultlessIsGroup, FaultlessOrFirst, FirstOfSourcesIsBroken, GroupIsFaultless, OneFirstOfSources, OneFirstOfLaid, OneFirstOfText, OneReading, OnePathOrder};

/// A group comes to one fault, or to none: two first faults are equal, and a group that has one is not
/// without a fault.
pub fn one_first_of_group()
    ensures { OneFirstOfGroup }
{}

/// The first fault of a group is something that is wrong with it: with a source after those before it,
/// with the files of all, or with the names of its packages.
pub fn first_of_group_is_broken()
    ensures { FirstOfGroupIsBroken }
{}

/// A group without a fault is legal: nothing is wrong with it.
pub fn faultless_group_is_legal()
    ensures { FaultlessGroupIsLegal }
{}

/// And a group that is legal has no fault.
pub fn legal_group_is_faultless()
    ensures { LegalGroupIsFaultless }
{}

/// A group is legal, or it has a first fault.
pub fn legal_group_or_first()
    ensures { LegalGroupOrFirst }
{}

/// Two packages of one name are refused where the packages are made: the fault of the names that are
/// written is the refusal of `GroupResolver::resolve`, and there is none exactly where it refuses none.
pub fn names_agree()
    ensures { NamesAgree }
{}

/// Paths give sources one order.
pub fn one_path_order()
    ensures { OnePathOrder }
{}

/// What is read of a source is one, but for addresses: the tree that it spells, or the fault at which
/// reading stops.
pub fn one_reading()
    ensures { OneReading }
{}

/// Sources have one first fault, or none, whatever is read of them.
pub fn one_first_of_sources()
    ensures { OneFirstOfSources }
{}

/// And so have sources of the same paths and texts, wherever they lie in memory.
pub fn one_first_of_laid()
    ensures { OneFirstOfLaid }
{}

/// The first fault of sources is something that is wrong with them: one cannot be read or pushed, or the
/// files or the names of all are wrong.
pub fn first_of_sources_is_broken()
    ensures { FirstOfSourcesIsBroken }
{}

/// Sources have no fault, or they have a first one, whatever is read of them.
pub fn faultless_or_first()
    ensures { FaultlessOrFirst }
{}

/// Sources that make a group have no fault.
pub fn group_is_faultless()
    ensures { GroupIsFaultless }
{}

/// And sources without a fault make a group: the packages that their trees make.
pub fn faultless_is_group()
    ensures { FaultlessIsGroup }
{}

/// A text has one first fault, or none, whatever is read of it.
pub fn one_first_of_text()
    ensures { OneFirstOfText }
{}

/// What a refusal says is what its fault says: the words of a rule, or those for what is missing or depends
/// on itself.
pub fn text_is_of_fault()
    ensures { TextIsOfFault }
{}

/// So the line of a refusal is that of its fault: of its number, its place and what it says.
pub fn line_is_of_fault()
    ensures { LineIsOfFault }
{}

/// A fault has one line, whichever sources of the same paths and texts it is of: its bytes are a function
/// of these and of the fault.
pub fn one_line_of_fault()
    ensures { OneLineOfFault }
{}

/// Two refusals that state the first fault of sources of the same paths and texts have one line.
pub fn one_line_of_sources()
    ensures { OneLineOfSources }
{}

/// Two refusals of one text have one line: that of the first fault.
pub fn one_line_of_text()
    ensures { OneLineOfText }
{}

/// Two refusals that state one fault are one in plain values, of sources of the same paths and texts; so
/// the JSON of a refusal is a function of these and of its fault.
pub fn one_plain()
    ensures { OnePlain }
{}

/// Trees that say the same make one package, wherever they lie in memory.
pub fn one_package_of_trees()
    ensures { OnePackageOfTrees }
{}

/// Sources of the same paths and texts have one output: one status, and the same bytes.
pub fn one_sources_output()
    ensures { OneSourcesOutput }
{}

/// A text has one output: what a program prints of it, and the status, follow from the text alone.
pub fn one_output()
    ensures { OneOutput }
{}

/// Sources of the same paths and texts have one outcome: the same packages, or the same refusal, unless
/// an allocation failed.
pub fn one_outcome()
    ensures { OneOutcome }
{}

/// And one outcome has one JSON.
pub fn one_json()
    ensures { OneJson }
{}
