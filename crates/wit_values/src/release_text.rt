//! The text of a version.
ghost use Rattle.std.specs.Prelude.{Some};
ghost use Rattle.wit_values.specs.ReleaseText.{release_text};

use crate::release::Release;
use std::fmt;

/// The three numbers, and where they are not empty `-` with the pre-release and `+` with the build.
impl fmt::Display for Release {
    ghost output = { λ r. Some (release_text r) };

    fn fmt<W: fmt::Write>(&self, f: &mut fmt::Formatter<W>) -> fmt::Result {
        let (major, minor, patch) = (self.major, self.minor, self.patch);
        write!(f, "{major}.{minor}.{patch}")?;
        let pre = self.pre.as_str();
        if !pre.is_empty() {
            write!(f, "-{pre}")?;
        }
        let build = self.build.as_str();
        if !build.is_empty() {
            write!(f, "+{build}")?;
        }
        Ok(())
    }
}
