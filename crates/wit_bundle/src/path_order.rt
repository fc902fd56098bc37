//! Sources in the order of their paths.
ghost use Rattle.std.specs.Prelude.{IfOk, map};
ghost use Rattle.wit_bundle.specs.SourcePaths.{IsByPath};

use std::alloc::{AllocError, Global};
use wit_lex::Source;

/// The sources, by path, byte by byte; those of one path keep their order.
pub fn by_path(alloc: Global, sources: &[Source]) -> Result<Vec<&Source>, AllocError>
    ensures { IfOk result (λ turn. IsByPath sources.now (map (λ s. s.now) turn.items)) }
{
    let mut turn = Vec::new(alloc);
    for source in sources {
        turn.push(source)?;
    }
    turn.sort_by(|a, b| a.path.cmp(&b.path))?;
    Ok(turn)
}
