//! From sources or trees to packages, and each step of that by itself.

/// The names at the top of files: what their paths lead to, and the order of their items.
pub use wit_files::{FileNames, ForeignVisit, Found, Visit, Wanted, visits};
/// Groups: a package and those that are nested in its sources.
pub use wit_groups::{GroupResolver, UnresolvedPackageGroup};
/// What comments and attributes say, and the name that a header gives.
pub use wit_notes::{docs, external_id, package_name, stability};
/// The group that sources make, or their refusal in plain fields.
pub use wit_outcome::{Outcome, Plain, resolve, resolve_text};
/// One package, and what holds of every package.
pub use wit_groups::{Resolver, package_laws as laws};
/// The names of a scope, each of which is there once.
pub use wit_refusals::{NameScope, check_unique_names};
/// Groups and packages that can be borrowed with what is known of them.
pub use wit_resolved::{ResolvedGroup, ResolvedPackage};
/// Where a path leads.
pub use wit_top_names::Target;
