//! The sources of a text.
ghost use Rattle.std.specs.Prelude.{◌≤◌, IfOk, IfErr, OnOk};
ghost use Rattle.wit_lex.specs.Sources.{IsTooLarge};
ghost use Rattle.wit_bundle.specs.Bundle.{sources_of, unnamed};
ghost use Rattle.wit_bundle.specs.Laid.{AreLaid, room};

use crate::cutting::{named, prefix_of};
use std::alloc::Global;
use wit_lex::SourceMap;
use wit_type_tree::ParseResult;

/// The path of a text before all lines that start a source.
const PATH: &str = "stdin.wit";

/// The map of a text before all lines that start a source, which is a source if it is not empty.
fn map_of(alloc: Global, prefix: &str) -> ParseResult<SourceMap>
    ensures laid { IfOk result (λ map. AreLaid (unnamed prefix.now) map.sources.items) }
    ensures fits { OnOk result (room (unnamed prefix.now) ≤ 4294967295) }
    ensures too_large { IfErr result (λ e. IsTooLarge (room (unnamed prefix.now)) e) }
{
    let mut map = SourceMap::new(alloc);
    if prefix.is_empty() {
        return Ok(map);
    }
    map.push(alloc, PATH, prefix)?;
    Ok(map)
}

/// The sources of a text.
///
/// A line that begins with `=== ` starts a source. Its path is the rest of that line, without a CR at
/// its end, and its text is all that follows up to the next such line. What comes before the
/// first such line is the source `stdin.wit`, if it is not empty.
///
/// # Errors
///
/// - 52: the lengths of all sources, and one place more for each, are more than 4,294,967,295 together.
/// - 45: a growth was refused.
pub fn bundle(alloc: Global, text: &str) -> ParseResult<SourceMap>
    ensures laid { IfOk result (λ map. AreLaid (sources_of text.now) map.sources.items) }
    ensures fits { OnOk result (room (sources_of text.now) ≤ 4294967295) }
    ensures too_large { IfErr result (λ e. IsTooLarge (room (sources_of text.now)) e) }
{
    let (prefix, mut rest) = prefix_of(text);
    let mut map = map_of(alloc, prefix)?;
    while let Some(rest_after) = rest {
        let (path, contents) = named(rest_after);
        let (contents, next) = prefix_of(contents);
        map.push(alloc, path, contents)?;
        rest = next;
    }
    Ok(map)
}
