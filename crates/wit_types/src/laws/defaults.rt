//! Defaults: nothing is known of what has no attributes, and no docs.
ghost use Rattle.std.specs.Prelude.{◌≡◌, None};
ghost use Rattle.wit_types.specs.declared.stability.Stability.TheVariants.{Unknown};

use crate::docs::Docs;
use crate::stability::Stability;

/// The default stability is unknown.
pub fn default_stability() -> Stability
    ensures { result ≡ Unknown }
{
    Stability::default()
}

/// The default docs have no contents.
pub fn default_docs() -> Docs
    ensures { result.contents ≡ None }
{
    Docs::default()
}
