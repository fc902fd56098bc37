//! The words of refusals of a name that occurs twice.
ghost use Rattle.std.specs.Prelude.{◌≡◌, IfOk, string_bytes, ◌++◌, codes};
ghost use Rattle.wit_syntax.specs.Words.{clash, defined_twice};

use std::alloc::{AllocError, Global};

/// The words for a name that an earlier one is. `desc` says what they are names of.
pub fn defined_twice(alloc: Global, desc: &str, name: &str) -> Result<String, AllocError>
    ensures { IfOk result (λ words. string_bytes words ≡ defined_twice desc.now name.now) }
{
    format!(in alloc; "{desc} `{name}` is defined more than once")
}

/// The words for a name that is spelled as an earlier one.
fn duplicate(alloc: Global, desc: &str, name: &str) -> Result<String, AllocError>
    ensures { IfOk result (λ words. string_bytes words ≡ codes "duplicate " ++ (desc.now ++ (codes " `" ++ (name.now ++ codes "`")))) }
{
    format!(in alloc; "duplicate {desc} `{name}`")
}

/// The words for a name that differs from an earlier one in case alone.
fn conflicting(alloc: Global, desc: &str, earlier: &str, later: &str) -> Result<String, AllocError>
    ensures { IfOk result (λ words. string_bytes words ≡ desc.now ++ (codes " `" ++ (later.now ++ (codes "` conflicts with previous " ++ (desc.now ++ (codes " `" ++ (earlier.now ++ codes "`"))))))) }
{
    format!(in alloc; "{desc} `{later}` conflicts with previous {desc} `{earlier}`")
}

/// The words for a name that an earlier one is once case is folded. `desc` says what they are names of.
pub(crate) fn clash(
    alloc: Global,
    desc: &str,
    earlier: &str,
    later: &str,
) -> Result<String, AllocError>
    ensures { IfOk result (λ words. string_bytes words ≡ clash desc.now earlier.now later.now) }
{
    if earlier == later {
        duplicate(alloc, desc, earlier)
    } else {
        conflicting(alloc, desc, earlier, later)
    }
}
