//! What holds of all values: how they are copied, compared and ordered, and of the tracks of all
//! versions.
//!
//! What each call here ensures is a law. The calls about tracks change nothing and answer nothing:
//! their laws are of the definitions that the calls of `PackageName` meet.
ghost use Rattle.wit_model.specs.TrackLaws.{TrackOfTrack, TrackThenSuffix, TracksDetermine};

pub mod copies;
pub mod equality;
pub mod order;

use semver::Version;

/// A track followed by its suffix is the version's text.
pub fn track_then_suffix(version: &Version)
    ensures { TrackThenSuffix version.now }
{}

/// The track version of a track version is itself.
pub fn track_of_track(version: &Version)
    ensures { TrackOfTrack version.now }
{}

/// Two versions have equal track versions exactly if they have equal tracks.
pub fn tracks_determine(first: &Version, second: &Version)
    ensures { TracksDetermine first.now second.now }
{
    // A number that is read is known to fit its field, and so to have digits that say it.
    let _major = first.major;
    let _minor = first.minor;
    let _patch = first.patch;
    let _other_major = second.major;
    let _other_minor = second.minor;
    let _other_patch = second.patch;
}
