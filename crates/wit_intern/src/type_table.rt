//! Tables from keys to types.
ghost use Rattle.std.specs.Prelude.{◌≡◌, Option, ℕ, OnOk, OnErr, IfErr};
ghost use Rattle.wit_intern.specs.FiniteMap.{FiniteMap, set_at};

use crate::key::InternKey;
use std::alloc::AllocFailed;
use wit_types::TypeId;

/// A table from keys to types, whose content is a finite map.
pub trait InternTable {
    ghost content: { Self → FiniteMap };

    /// The type at a key, if one is there.
    fn find(&self, key: &InternKey) -> Option<TypeId>
        ensures { result ≡ content self.now key.now };

    /// Sets the type at a key, also where one is there.
    ///
    /// If a growth is refused, the table stays as it was and the key comes back.
    fn insert(&mut self, key: InternKey, id: TypeId) -> Result<(), AllocFailed<InternKey>>
        ensures set { OnOk result (content self.new ≡ set_at key id (content self.old)) }
        ensures refused { OnErr result (content self.new ≡ content self.old) }
        ensures key_returned { IfErr result (λ e. e.value ≡ key) };
}
