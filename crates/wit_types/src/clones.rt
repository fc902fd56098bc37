//! Clones of entries: each is equal to its source.
ghost use Rattle.std.specs.Prelude.{◌≡◌};

use crate::laws::copies::{copy_docs, copy_external_id, copy_kind, copy_stability, copy_text};
use crate::types::TypeDef;
use std::alloc::AllocError;

impl Clone for TypeDef {
    ghost is_clone = { λ def copy. copy ≡ def };

    fn clone(&self) -> Result<TypeDef, AllocError> {
        Ok(TypeDef {
            name: copy_text(&self.name)?,
            kind: copy_kind(&self.kind)?,
            owner: self.owner,
            docs: copy_docs(&self.docs)?,
            stability: copy_stability(&self.stability)?,
            span: self.span,
            external_id: copy_external_id(&self.external_id)?,
        })
    }
}
