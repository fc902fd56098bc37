//! The JSON of what sources come to.
ghost use Rattle.std.specs.Prelude.{◌≡◌, IfOk};
ghost use Rattle.wit_json.specs.ValueTokens.{json_text};
ghost use Rattle.wit_json.specs.Refusal.{optional_range};
ghost use Rattle.wit_outcome.specs.Outcome.{outcome_json, plain_place};

use crate::outcome::Outcome;
use crate::plain::Plain;
use std::alloc::{AllocError, Global};
use wit_json::{Place, group_json, refusal_json};

/// The range of a refusal, if it is in a source.
fn place_of(plain: &Plain) -> Option<Place<'_>>
    ensures { optional_range result ≡ plain_place plain.now }
{
    if plain.placed {
        Some(Place {
            path: plain.path.as_str(),
            start: plain.start,
            end: plain.end,
        })
    } else {
        None
    }
}

/// The JSON of a group, or of a refusal.
///
/// # Errors
///
/// `AllocError` if an allocation failed.
pub fn outcome_json(alloc: Global, outcome: &Outcome) -> Result<Vec<u8>, AllocError>
    ensures { IfOk result (λ text. text.items ≡ json_text (outcome_json outcome.now)) }
{
    match outcome {
        Outcome::Group(group) => {
            let sources = group.source_map.sources();
            group_json(alloc, sources, &group.main, group.nested.as_slice())
        }
        Outcome::Refusal(plain) => {
            refusal_json(alloc, plain.rule, place_of(plain), plain.message.as_str())
        }
    }
}
