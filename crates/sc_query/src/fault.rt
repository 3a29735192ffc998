ghost use Rattle.std.specs.Prelude.{◌≡◌};
ghost use Rattle.sc_query.specs.declared.fault.QueryFault.TheVariants.{Memory};

use std::alloc::{AllocError, AllocFailed};
use thiserror::Error;

/// Why a text is no query.
#[derive(Clone, Copy, Debug, PartialEq, Eq, Error)]
pub enum QueryFault {
    /// The place, in bytes from 0, of the first token that can't follow those before it; the text's length where it ends
    /// too early, and the most bytes of a query where it is longer than that.
    #[error("bad query at {at}")]
    At { at: u32 },
    /// Memory ran out. The text may be read again.
    #[error("out of memory")]
    Memory,
}

impl From<AllocError> for QueryFault {
    ghost from_gives = { λ _ fault. fault ≡ Memory };

    fn from(_error: AllocError) -> QueryFault {
        QueryFault::Memory
    }
}

impl<T: Drop> From<AllocFailed<T>> for QueryFault {
    ghost from_gives = { λ _ fault. fault ≡ Memory };

    fn from(_error: AllocFailed<T>) -> QueryFault {
        QueryFault::Memory
    }
}
