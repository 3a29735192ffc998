ghost use Rattle.std.specs.Prelude.{◌≡◌};
ghost use Rattle.sc_frames.specs.declared.fault.BodyFault.TheVariants.{Memory};

use std::alloc::{AllocError, AllocFailed};
use thiserror::Error;

/// Why no entries were read.
#[derive(Clone, Copy, Debug, PartialEq, Eq, Error)]
pub enum BodyFault {
    /// The bytes are not one entry or more.
    #[error("the bytes are no entries of a journal")]
    NotEntries,
    /// Memory ran out. The bytes may be read again.
    #[error("out of memory")]
    Memory,
}

impl From<AllocError> for BodyFault {
    ghost from_gives = { λ _ fault. fault ≡ Memory };

    fn from(_error: AllocError) -> BodyFault {
        BodyFault::Memory
    }
}

impl<T: Drop> From<AllocFailed<T>> for BodyFault {
    ghost from_gives = { λ _ fault. fault ≡ Memory };

    fn from(_error: AllocFailed<T>) -> BodyFault {
        BodyFault::Memory
    }
}
