//! Order: types as they are listed, and the other ordered values field by field.
ghost use Rattle.std.specs.Prelude.{◌≡◌};
ghost use Rattle.wit_model.specs.PackageOrders.{package_name_cmp};

use std::cmp::Ordering;
use wit_package_names::package_name::PackageName;
pub use wit_types::laws::order::{compare_stabilities, compare_types};

/// The order of two names of packages: field by field, no version before all versions.
pub fn compare_package_names(name: &PackageName, other: &PackageName) -> Ordering
    ensures { result ≡ package_name_cmp name.now other.now }
{
    name.cmp(other)
}
