ghost use Rattle.std.specs.Prelude.{◌≡◌};
ghost use Rattle.sc_eval.specs.declared.fault.BindFault.TheVariants.{Memory};

use std::alloc::{AllocError, AllocFailed};
use thiserror::Error;

/// Why a query asks nothing of a document.
#[derive(Clone, Copy, Debug, PartialEq, Eq, Error)]
pub enum BindFault {
    /// The place, in bytes from 0, of the first leaf of no field, or whose value can be no key in its field.
    #[error("bad query at {at}")]
    At { at: u32 },
    /// Memory ran out. The query may be bound again.
    #[error("out of memory")]
    Memory,
}

impl From<AllocError> for BindFault {
    ghost from_gives = { λ _ fault. fault ≡ Memory };

    fn from(_error: AllocError) -> BindFault {
        BindFault::Memory
    }
}

impl<T: Drop> From<AllocFailed<T>> for BindFault {
    ghost from_gives = { λ _ fault. fault ≡ Memory };

    fn from(_error: AllocFailed<T>) -> BindFault {
        BindFault::Memory
    }
}
