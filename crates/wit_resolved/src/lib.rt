//! Resolved packages, borrowed, with what is known of them.
//!
//! An id of a resolved package is the place of an entry, those of its types point backward, and the name of
//! each function has the mark of its kind. A `PackageRef`, and all that it gives, carries these facts. So a
//! caller reads entries, names of items and the futures of functions, also in functions of its own, and
//! proves nothing.
#![tactic(auto)]

pub mod function_ref;
pub mod interface_ref;
pub mod item_ref;
pub mod package_ref;
mod paths;
pub mod resolved;
pub mod type_ref;
pub mod world_ref;

pub use function_ref::{FunctionRef, FunctionRefs};
pub use interface_ref::{InterfaceRef, InterfaceRefs, NamedTypes};
pub use item_ref::{ItemRef, ItemRefs};
pub use package_ref::{PackageRef, PackageRefs};
pub use resolved::{ResolvedGroup, ResolvedPackage};
pub use type_ref::{TypeRef, TypeRefs};
pub use world_ref::{WorldRef, WorldRefs};
