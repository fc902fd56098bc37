//! Integers that hold flags and say cases.
use crate::shared::SPAN;
use std::alloc::{AllocError, Global};
use std::test::Fail;
use wit_model::laws::equality::{is_same_flags_repr, is_same_int};
use wit_types::{Docs, Flag, Flags, FlagsRepr, discriminant_type};
use wit_values::{Row, Text};

fn flags(alloc: Global, count: usize) -> Result<Flags, AllocError> {
    let mut flags = Row::new(alloc);
    for _ in 0..count {
        let name = Text::from_str(alloc, "f")?;
        flags.push(Flag {
            name,
            docs: Docs::default(),
            span: SPAN,
        })?;
    }
    Ok(Flags { flags })
}

/// Whether so many flags are in so many integers.
fn is_layout(made: &Flags, count: usize, integers: usize) -> bool {
    let mut found: usize = 0;
    for _ in &made.flags {
        found = found.saturating_add(1);
    }
    let repr = made.repr();
    found == count
        && is_same_flags_repr(&repr, &FlagsRepr::U32(integers))
        && repr.count() == integers
}

#[test]
fn integers(rt: HostRuntime) -> Result<(), Fail> {
    for (count, integers) in [(0, 0), (33, 2)] {
        let made = flags(rt.alloc(), count)?;
        assert!(rt; is_layout(&made, count, integers), "{count}");
    }
    let int = discriminant_type(1);
    assert!(rt; is_same_int(int, int));
    Ok(())
}
