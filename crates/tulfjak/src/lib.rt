//! WIT packages: from texts to resolved data, for callers in Rattle.
//!
//! This crate has no code. It re-exports what a caller needs of the crates of the resolver, so that one name
//! in `crates.txt` is enough:
//!
//! | module | has |
//! |---|---|
//! | [`source`] | texts with their paths, and places in them |
//! | [`syntax`] | the tree of a source |
//! | [`resolve`] | from sources or trees to packages, and each step of that by itself |
//! | [`package`] | packages as data: types, functions, interfaces, worlds |
//! | [`refs`] | the same, borrowed, with what is known of it |
//! | [`names`] | labels, mangled names, tracks of versions |
//! | [`order`] | tables of names, each after those that it needs |
//! | [`output`] | listings, JSON, and refusals as text |
//!
//! Most callers begin with [`ResolvedGroup::parse`], or with [`source::bundle`] and
//! [`ResolvedGroup::from_sources`], and go on with [`ResolvedGroup::main`].
#![tactic(auto)]

pub mod names;
pub mod order;
pub mod output;
pub mod package;
pub mod refs;
pub mod resolve;
pub mod source;
pub mod syntax;

pub use wit_groups::{GroupResolver, Resolver, UnresolvedPackageGroup};
pub use wit_lex::SourceMap;
pub use wit_model::UnresolvedPackage;
pub use wit_resolved::{PackageRef, ResolvedGroup, ResolvedPackage};
pub use wit_type_tree::{ParseError, ParseErrorKind, ParseResult};
pub use wit_values::Span;
