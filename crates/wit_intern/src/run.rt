//! Runs of finds and inserts.
ghost use Rattle.std.specs.Prelude.{◌≡◌, IfOk, OnErr, OnOk, length, take};
ghost use Rattle.wit_intern.specs.FiniteMap.{IsStopped, after_step, after_steps, replies, reply};

use crate::key::InternKey;
use crate::type_table::InternTable;
use std::alloc::{AllocError, Global};
use wit_types::TypeId;

/// What a table is asked.
#[derive(Debug, Clone, PartialEq, Eq, Drop)]
pub enum InternStep {
    Find(InternKey),
    Insert(InternKey, TypeId),
}

/// What a table replies.
#[derive(Debug, Clone, Copy, PartialEq, Eq)]
pub enum InternReply {
    Found(Option<TypeId>),
    Inserted,
}

fn take_step<T: InternTable>(table: &mut T, asked: &InternStep) -> Result<InternReply, AllocError>
    ensures reply { IfOk result (λ r. r ≡ reply asked.now (T.content table.old)) }
    ensures table { OnOk result (T.content table.new ≡ after_step asked.now (T.content table.old)) }
    ensures refused { OnErr result (T.content table.new ≡ T.content table.old) }
{
    match asked {
        InternStep::Find(key) => Ok(InternReply::Found(table.find(key))),
        InternStep::Insert(key, id) => {
            table.insert(key.clone()?, *id)?;
            Ok(InternReply::Inserted)
        }
    }
}

/// The replies of a table to finds and inserts, one after the other.
///
/// They are those of a finite map, whichever way the table holds it, and the table is then that map
/// after all steps. If an allocation failed they end there, and the second answer says so: the table is
/// the map after the steps with a reply, or after one more.
pub fn intern_run<T: InternTable>(
    alloc: Global,
    table: &mut T,
    steps: &[InternStep],
) -> (Vec<InternReply>, Result<(), AllocError>)
    ensures prefix { result.0.items ≡ take (length result.0.items) (replies steps.now (T.content table.old)) }
    ensures whole { OnOk result.1 (result.0.items ≡ replies steps.now (T.content table.old)) }
    ensures after { OnOk result.1 (T.content table.new ≡ after_steps steps.now (T.content table.old)) }
    ensures stopped { OnErr result.1 (IsStopped steps.now (length result.0.items) (T.content table.old) (T.content table.new)) }
{
    let mut as_stated = Vec::new(alloc);
    for at in 0..steps.len() {
        let reply = match take_step(table, &steps[at]) {
            Ok(reply) => reply,
            Err(refusal) => return (as_stated, Err(refusal)),
        };
        match as_stated.push(reply) {
            Ok(()) => {}
            Err(_) => return (as_stated, Err(AllocError)),
        }
    }
    (as_stated, Ok(()))
}
