ghost use Rattle.std.specs.Prelude.{◌≡◌};
ghost use Rattle.sc_schema.specs.declared.fault.DocFault.TheVariants as faults;

use sc_record::Text;
use std::alloc::AllocError;
use thiserror::Error;

/// Why a document can't be taken, by the first of its faults: those of its id, then that of its version, then those of its
/// fields by name.
#[derive(Debug, Drop, Error)]
pub enum DocFault {
    /// There is no id, or it is null or empty.
    #[error("Document is missing mandatory uniqueKey field: id")]
    NoId,
    #[error("id is longer than 512 bytes")]
    IdTooLong,
    /// A name that is neither `id` nor `_version_` nor that of a dynamic field.
    #[error("unknown field '{0}'")]
    UnknownField(Text),
    /// A value or a change that the field of this name does not take.
    #[error("wrong value for field '{0}'")]
    WrongValue(Text),
    #[error("out of memory")]
    Memory,
}

impl From<AllocError> for DocFault {
    ghost from_gives = { λ _ fault. fault ≡ faults.Memory };

    fn from(_error: AllocError) -> DocFault {
        DocFault::Memory
    }
}
