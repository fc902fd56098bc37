//! Labels, and names of functions.

use crate::answers::push_answer;
use std::alloc::{AllocError, Global};
use tulfjak::names::{Folded, getter_for_setter, is_mangled, is_setter, validate_id};

/// Adds what calls on a name return.
fn push_label(alloc: Global, text: &mut String, name: &str) -> Result<(), AllocError> {
    push_answer(text, "validate_id", &(name, validate_id(name)))?;
    if is_mangled(name) {
        push_answer(text, "Folded::new", &Folded::new(alloc, name)?.as_str())?;
    }
    if is_setter(name) {
        push_answer(text, "getter_for_setter", &getter_for_setter(alloc, name)?)?;
    }
    Ok(())
}

/// Adds what calls on names by themselves return.
pub fn push_labels(alloc: Global, text: &mut String) -> Result<(), AllocError> {
    for name in ["A-b", "a--b", "a.b", "[get]x", "[method][set]r.x"] {
        push_label(alloc, text, name)?;
    }
    Ok(())
}
