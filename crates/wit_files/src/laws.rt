//! What holds of the first fault of the names of files: it breaks a rule, and where there is none, no rule is broken.
ghost use Rattle.wit_files.specs.Laws.{NamesAgree};

/// Of all that [`FileNames::gather`](crate::FileNames::gather) looks for: E5 to E9, and E30 to E34 of the
/// attributes before paths with a package.
pub fn names_agree()
    ensures { NamesAgree }
{}
