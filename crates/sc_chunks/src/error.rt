use std::alloc::AllocError;
use thiserror::Error;

/// Why a coding was not decoded.
#[derive(Debug, Clone, Copy, PartialEq, Eq, Error)]
pub enum DecodeError {
    /// A chunk line, the line end after data or a trailer line is none, or the trailer lines pass 65,536 bytes.
    #[error("malformed chunks")]
    Malformed,
    /// A chunk line states more data than 16,777,216 bytes with what came before, or the coding is not whole after
    /// 33,554,432 bytes and more come.
    #[error("chunks are too large")]
    TooLarge,
    #[error("out of memory")]
    Memory,
}

impl From<AllocError> for DecodeError {
    ghost from_gives = { λ e error. error ≡ Memory };

    ghost use Rattle.std.specs.Prelude.{◌≡◌};
    ghost use Rattle.sc_chunks.specs.declared.error.DecodeError.TheVariants.{Memory};

    fn from(_error: AllocError) -> DecodeError {
        DecodeError::Memory
    }
}
