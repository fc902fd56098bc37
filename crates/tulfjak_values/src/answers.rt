//! Lines of what calls return.

use std::alloc::AllocError;
use std::fmt;

/// Adds a line: a call, and what it returns.
pub fn push_answer<T: fmt::Debug>(
    text: &mut String,
    call: &str,
    answer: &T,
) -> Result<(), AllocError> {
    write!(text, "{call}: {answer:?}\n")
}

/// Adds a line: a call, and what it returns, as a user reads it.
pub fn push_shown<T: fmt::Display>(
    text: &mut String,
    call: &str,
    answer: &T,
) -> Result<(), AllocError> {
    write!(text, "{call}: {answer}\n")
}
