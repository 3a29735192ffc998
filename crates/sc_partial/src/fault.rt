ghost use Rattle.std.specs.Prelude.{◌≡◌};
ghost use Rattle.sc_partial.specs.declared.fault.PartialFault.TheVariants as faults;

use sc_record::Text;
use std::alloc::AllocError;
use thiserror::Error;

/// Why a document can't be changed.
#[derive(Debug, Drop, Error)]
pub enum PartialFault {
    /// The first field, by name, that can't take its change: a sum would leave the range of its kind, or it has one value
    /// and would have two.
    #[error("field '{0}' can't take this change")]
    Field(Text),
    #[error("out of memory")]
    Memory,
}

impl From<AllocError> for PartialFault {
    ghost from_gives = { λ _ fault. fault ≡ faults.Memory };

    fn from(_error: AllocError) -> PartialFault {
        PartialFault::Memory
    }
}
