//! What holds of all functions.
//!
//! What each call here ensures is a law.

pub mod equality;
