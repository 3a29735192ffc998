ghost use Rattle.std.specs.Prelude.{◌≡◌, ◌<◌, List, ℕ, ◌∷◌, length};
ghost use Rattle.sc_chunks.specs.Coding.{coding_limit};
ghost use Rattle.sc_chunks.specs.Progress.{BeforeReturn, InChunk, IsStepOf, NeedsByte, ReachesPlace};

use crate::error::DecodeError;
use crate::line::{after_digits, after_extension, after_line_return, after_size};
use crate::place::Place;
use crate::trailer::after_trailer;

/// Takes a byte that is no data, where so many bytes of data came before.
pub(crate) fn step(place: Place, have: usize, byte: u8) -> Result<Place, DecodeError>
    ensures { (coded content : List ℕ) → ReachesPlace coded content place → length content ≡ have → length coded < coding_limit
        → NeedsByte place → IsStepOf coded byte content result }
{
    match place {
        Place::Digits { size, count } => after_digits(size, count, byte),
        Place::Pad { size } => after_size(size, byte),
        Place::Extension { size } => after_extension(size, byte),
        Place::LineFeed { size } => after_line_return(size, have, byte),
        Place::Data { left: _ } => after_data(byte),
        Place::DataFeed => after_data_return(byte),
        Place::Trailer {
            size,
            count,
            named,
            returned,
        } => after_trailer(size, count, named, returned, byte),
        Place::End => Ok(Place::End),
    }
}

/// Takes the byte after the data of a chunk.
fn after_data(byte: u8) -> Result<Place, DecodeError>
    ensures { (coded content : List ℕ) → InChunk coded content 0 → IsStepOf coded byte content result }
{
    match byte {
        b'\r' => Ok(Place::DataFeed),
        _ => Err(DecodeError::Malformed),
    }
}

/// Takes the byte after the CR that follows the data of a chunk.
fn after_data_return(byte: u8) -> Result<Place, DecodeError>
    ensures { (coded content : List ℕ) → BeforeReturn (λ earlier. InChunk earlier content 0) coded → IsStepOf coded byte content result }
{
    match byte {
        b'\n' => Ok(Place::Digits { size: 0, count: 0 }),
        _ => Err(DecodeError::Malformed),
    }
}
