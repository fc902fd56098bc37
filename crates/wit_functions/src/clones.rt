//! Clones: each is equal to its source.
ghost use Rattle.std.specs.Prelude.{◌≡◌, IfOk};

use crate::function::{Function, Param};
use std::alloc::AllocError;
use wit_types::laws::copies::{copy_docs, copy_external_id, copy_stability};
use wit_values::Row;

fn copy_params(params: &Row<Param>) -> Result<Row<Param>, AllocError>
    ensures { IfOk result (λ copy. copy ≡ params.now) }
{
    params.clone()
}

impl Clone for Function {
    ghost is_clone = { λ function copy. copy ≡ function };

    fn clone(&self) -> Result<Function, AllocError> {
        Ok(Function {
            name: self.name.clone()?,
            kind: self.kind,
            params: copy_params(&self.params)?,
            result: self.result,
            docs: copy_docs(&self.docs)?,
            stability: copy_stability(&self.stability)?,
            span: self.span,
            external_id: copy_external_id(&self.external_id)?,
        })
    }
}
