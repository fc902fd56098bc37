//! Why a table has no order.
ghost use Rattle.std.specs.Prelude.{◌≡◌};

use std::alloc::{AllocError, AllocFailed};

/// Why a table has no order.
#[derive(Debug, Drop)]
pub enum OrderFault {
    /// The needed name `index` of the key at `place` is no key. None before it is missing.
    Missing { place: usize, index: usize },
    /// Every needed name is a key, and the needed name `index` of the key at `place` is the first
    /// that reaches a cycle, as that key does.
    Cyclic { place: usize, index: usize },
    /// A growth was refused.
    OutOfMemory,
}

impl From<AllocError> for OrderFault {
    ghost use Rattle.wit_graph.specs.declared.table_fault.OrderFault.TheVariants.{OutOfMemory as WantsMemory};

    ghost from_gives = { λ _ f. f ≡ WantsMemory };

    fn from(_e: AllocError) -> OrderFault {
        OrderFault::OutOfMemory
    }
}

impl<T: Drop> From<AllocFailed<T>> for OrderFault {
    ghost use Rattle.wit_graph.specs.declared.table_fault.OrderFault.TheVariants.{OutOfMemory as WantsMemory};

    ghost from_gives = { λ _ f. f ≡ WantsMemory };

    fn from(_e: AllocFailed<T>) -> OrderFault {
        OrderFault::OutOfMemory
    }
}
