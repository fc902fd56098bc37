//! Values that trees and packages share: spans, and small types over `String`, `Vec` and `Version`, which
//! contracts see as plain lists.
//!
//! A copy of each equals its source, and each gives back what it holds without allocation.
#![tactic(auto)]

pub mod accessor;
pub mod holding;
pub mod laws;
pub mod rare;
pub mod release;
mod release_text;
pub mod row;
pub mod span;
pub mod text;

pub use accessor::AccessorKind;
pub use holding::{pair_with, push, shrunk};
pub use rare::Rare;
pub use release::{BuildText, PreText, Release};
pub use row::Row;
pub use span::{Span, compare_spans, is_same_span};
pub use text::Text;
