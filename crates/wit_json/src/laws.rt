//! What holds of the JSON of all groups.
//!
//! A group is plain if each version is one by SemVer 2.0.0, no name of an import or export and no namespace
//! has a colon, no name of a package has an `@`, and ids are of 64 bits: so is each that is read from text.
ghost use Rattle.wit_json.specs.Laws.{JsonDetermines, KeysAreUnique};

/// No object in the JSON of a plain group has a key twice, at any depth, if no map of its packages has.
pub fn keys_are_unique()
    ensures { KeysAreUnique }
{}

/// Two plain groups with one JSON are equal, but for the texts of their sources: of a source the JSON says
/// the path and the range. Its numbers have at most 20 digits, as all have that `group_json` writes.
pub fn json_determines()
    ensures { JsonDetermines }
{}
