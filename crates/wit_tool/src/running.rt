//! From sources to what is written of them.
ghost use Rattle.std.specs.Prelude.{◌≡◌, IfOk, IfSome};
ghost use Rattle.wit_listing.specs.Listing.{listing_text};
ghost use Rattle.wit_listing.specs.Output.{IsWritten};
ghost use Rattle.wit_tool.specs.Output.{IsSourcesOutput, OrMemory, Writes};
ghost use Rattle.wit_tool.specs.Run.{IsGroupOf, IsListed, IsRefusalWritten};

use std::alloc::Global;
use std::io::Write;
use wit_groups::UnresolvedPackageGroup;
use wit_lex::SourceMap;
use wit_listing::{RunFault, error_line};
use wit_type_tree::ParseError;

/// Writes the listing of a group: of its main package, and then of each nested one. A package has a line
/// for its name, and one for each type, interface, world and item of another package, and for what is in
/// these.
///
/// # Errors
///
/// - `Output`: a write failed or wrote no byte. What went out is a beginning of the listing.
/// - `Memory`: an allocation failed. Nothing went out.
pub fn listing<W: Write>(
    alloc: Global,
    group: &UnresolvedPackageGroup,
    out: &mut W,
) -> Result<(), RunFault>
    ensures { IsWritten (λ text. text ≡ listing_text group.now.main group.now.nested) (W.contents out.old) (W.contents out.new) result }
{
    wit_listing::listing(alloc, &group.main, group.nested.as_slice(), out)
}

/// Writes the listing of a group, and answers the group.
fn list<W: Write>(
    alloc: Global,
    group: UnresolvedPackageGroup,
    out: &mut W,
) -> Result<Option<UnresolvedPackageGroup>, RunFault>
    ensures { IsListed group (W.contents out.old) (W.contents out.new) result }
{
    listing(alloc, &group, out)?;
    Ok(Some(group))
}

/// Writes the line of a refusal, and answers that no group was listed.
fn refuse<W: Write>(
    alloc: Global,
    map: &SourceMap,
    fault: &ParseError,
    out: &mut W,
) -> Result<Option<UnresolvedPackageGroup>, RunFault>
    ensures { IsRefusalWritten map.now.sources.items fault.now (W.contents out.old) (W.contents out.new) result }
{
    error_line(alloc, map, fault, out)?;
    Ok(None)
}

/// Reads the map's sources by path, byte by byte, those with equal paths in push order. Resolves them as
/// one package, and each package that is nested in them by itself. Writes the listing of all, or the line
/// of the refusal, and gives the group that was listed, if one was.
///
/// # Errors
///
/// - `Output`: a write failed or wrote no byte. What went out is a beginning of the text.
/// - `Memory`: an allocation failed while the text was made. Nothing went out. A failed allocation in
///   reading or resolving is a refusal, whose line is written.
pub fn run<W: Write>(
    alloc: Global,
    map: SourceMap,
    out: &mut W,
) -> Result<Option<UnresolvedPackageGroup>, RunFault>
    ensures output { Writes (OrMemory (IsSourcesOutput map.sources.items)) (W.contents out.old) (W.contents out.new) result }
    ensures group { IfOk result (λ listed. IfSome listed (IsGroupOf map.sources.items)) }
{
    match UnresolvedPackageGroup::from_sources(alloc, map) {
        Ok(group) => list(alloc, group, out),
        Err((map, fault)) => refuse(alloc, &map, &fault, out),
    }
}
