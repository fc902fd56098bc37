//! The functions of a package: what each is, how it is named and called, what its types hold, and
//! the setters among them.
//!
//! Their types are those of `wit_types`. Spans are half-open ranges of bytes in the sources.
#![tactic(auto)]

pub mod abi;
mod clones;
pub mod function;
pub mod function_items;
pub mod function_kind;
mod function_map;
pub mod function_name;
pub mod futures;
pub mod laws;
pub mod maybe_function;
mod parted;
mod placed;
mod reordering;
pub mod setters;
pub mod signature;
mod spans;

pub use abi::{AbiVariant, LiftLowerAbi, Mangling, ManglingAndAbi, ManglingFault};
pub use function::{Function, FunctionKind, Param};
pub use function_map::FunctionMap;
pub use futures::reaches_unknown;
pub use setters::place_setters_after_getters;
pub use signature::ParamResultTypes;
