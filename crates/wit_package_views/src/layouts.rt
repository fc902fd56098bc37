//! The view `layouts`: the integers that hold the flags and say the cases of each type.

use std::alloc::AllocError;
use wit_model::UnresolvedPackage;
use wit_types::TypeDefKind;

/// More cases than a text of this view has.
const MANY: usize = 1_000_000;

/// Puts the integers of a kind after a text.
fn push_layout(text: &mut String, kind: &TypeDefKind) -> Result<(), AllocError> {
    match kind {
        TypeDefKind::Flags(flags) => {
            let repr = flags.repr();
            let count = repr.count();
            write!(text, "flags {repr:?} {count}\n")
        }
        TypeDefKind::Variant(variant) => {
            if variant.cases.len() > MANY {
                return text.push_str("many\n");
            }
            let tag = variant.tag();
            write!(text, "variant {tag:?}\n")
        }
        TypeDefKind::Enum(choice) => {
            if choice.cases.len() > MANY {
                return text.push_str("many\n");
            }
            let tag = choice.tag();
            write!(text, "enum {tag:?}\n")
        }
        _ => Ok(()),
    }
}

/// Puts the integers of all types after a text, a line each.
pub fn push_layouts(text: &mut String, package: &UnresolvedPackage) -> Result<(), AllocError> {
    for ty in package.types.iter() {
        push_layout(text, &ty.kind)?;
    }
    Ok(())
}
