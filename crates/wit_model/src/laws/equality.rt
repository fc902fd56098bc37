//! Equality: values are equal exactly if they are the same, interfaces and worlds but for the order of their maps.
ghost use Rattle.std.specs.Prelude.{◌≡◌, ◌↔◌, IsTrue};
ghost use Rattle.wit_model.specs.SamePackages.{IsSameInterface, IsSameWorld, IsSamePackage};

use crate::ast_item::AstItem;
use crate::interface::Interface;
use crate::unresolved::UnresolvedPackage;
use crate::world::{IncludeName, World, WorldInclude, WorldItem, WorldKey};
pub use wit_functions::laws::equality::{
    is_same_abi, is_same_abi_variant, is_same_function, is_same_function_kind, is_same_mangling,
    is_same_mangling_and_abi, is_same_param,
};
use wit_package_names::package_name::PackageName;
pub use wit_types::laws::equality::{
    is_same_case, is_same_docs, is_same_enum, is_same_enum_case, is_same_field, is_same_flag,
    is_same_flags, is_same_flags_repr, is_same_handle, is_same_int, is_same_outcome, is_same_owner,
    is_same_record, is_same_stability, is_same_tuple, is_same_type, is_same_type_def,
    is_same_variant,
};

/// Whether two renamings are the same.
pub fn is_same_include_name(a: &IncludeName, b: &IncludeName) -> bool
    ensures { IsTrue result ↔ (a.now ≡ b.now) }
{
    a == b
}

/// Whether two includes of worlds are the same.
pub fn is_same_world_include(a: &WorldInclude, b: &WorldInclude) -> bool
    ensures { IsTrue result ↔ (a.now ≡ b.now) }
{
    a == b
}

/// Whether two keys of worlds are the same.
pub fn is_same_world_key(a: &WorldKey, b: &WorldKey) -> bool
    ensures { IsTrue result ↔ (a.now ≡ b.now) }
{
    a == b
}

/// Whether two imports or exports are the same.
pub fn is_same_world_item(a: &WorldItem, b: &WorldItem) -> bool
    ensures { IsTrue result ↔ (a.now ≡ b.now) }
{
    a == b
}

/// Whether two places of interfaces and worlds are the same.
pub fn is_same_ast_item(a: AstItem, b: AstItem) -> bool
    ensures { IsTrue result ↔ (a ≡ b) }
{
    a == b
}

/// Whether two names of packages are the same.
pub fn is_same_package_name(a: &PackageName, b: &PackageName) -> bool
    ensures { IsTrue result ↔ (a.now ≡ b.now) }
{
    a == b
}

/// Whether two packages are the same, but for the order of the maps in them.
pub fn is_same_package(a: &UnresolvedPackage, b: &UnresolvedPackage) -> bool
    ensures { IsTrue result ↔ IsSamePackage a.now b.now }
{
    a == b
}

/// Whether two interfaces are the same, but for the order of their maps.
pub fn is_same_interface(a: &Interface, b: &Interface) -> bool
    ensures { IsTrue result ↔ IsSameInterface a.now b.now }
{
    a == b
}

/// Whether two worlds are the same, but for the order of their maps.
pub fn is_same_world(a: &World, b: &World) -> bool
    ensures { IsTrue result ↔ IsSameWorld a.now b.now }
{
    a == b
}
