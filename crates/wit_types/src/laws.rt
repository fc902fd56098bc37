//! What holds of all values: how they are copied, compared and ordered, and what the defaults are.
//!
//! What each call here ensures is a law.

pub mod copies;
pub mod defaults;
pub mod equality;
pub mod order;
