ghost use Rattle.std.specs.Prelude.{◌≡◌};
ghost use Rattle.sc_tail.specs.declared.fault.TailFault.TheVariants as tail;
ghost use Rattle.sc_tail.specs.declared.fault.ReadFault.TheVariants as read;

use sc_io::Failed;
use std::alloc::AllocError;
use thiserror::Error;

/// Why an append didn't come about.
#[derive(Debug, Clone, Copy, PartialEq, Eq, Error)]
pub enum TailFault {
    /// The file failed, and has counted it.
    #[error("the device failed")]
    Failed,
    /// The frames take 2^62 bytes or more.
    #[error("the file is full")]
    Full,
}

impl From<Failed> for TailFault {
    ghost from_gives = { λ _ fault. fault ≡ tail.Failed };

    fn from(_: Failed) -> Self {
        TailFault::Failed
    }
}

/// Why a file couldn't be read.
#[derive(Debug, Clone, Copy, PartialEq, Eq, Error)]
pub enum ReadFault {
    /// The file failed, and has counted it.
    #[error("the device failed")]
    Failed,
    /// Memory ran out.
    #[error("out of memory")]
    Memory,
}

impl From<Failed> for ReadFault {
    ghost from_gives = { λ _ fault. fault ≡ read.Failed };

    fn from(_: Failed) -> Self {
        ReadFault::Failed
    }
}

impl From<AllocError> for ReadFault {
    ghost from_gives = { λ _ fault. fault ≡ read.Memory };

    fn from(_: AllocError) -> Self {
        ReadFault::Memory
    }
}
