ghost use Rattle.std.specs.Prelude.{◌≡◌, ◌≤◌, ◌⊎◌, ◌+◌, List, ℕ, length, IfOk};
ghost use Rattle.sc_chunks.specs.Coding.{coding_limit};
ghost use Rattle.sc_chunks.specs.Progress.{InChunk, IsAdvanceOf, ReachesPlace};
ghost use Rattle.sc_chunks.specs.declared.place.Place.TheVariants.{End};

use crate::error::DecodeError;
use crate::place::Place;
use crate::step::step;

/// Takes bytes of a coding until the coding is whole, and answers how many. `content` has the data so far.
pub(crate) fn advance(
    content: &mut Vec<u8>,
    place: &mut Place,
    bytes: &[u8],
) -> Result<usize, DecodeError>
    ensures within { IfOk result (λ count. count ≤ length bytes.now) }
    ensures all { IfOk result (λ count. (count ≡ length bytes.now) ⊎ (place.new ≡ End)) }
    ensures advances { (coded : List ℕ) → ReachesPlace coded content.old.items place.old → length coded + length bytes.now ≤ coding_limit
        → IsAdvanceOf coded bytes.now content.new.items place.new result }
{
    let mut at = 0;
    while at < bytes.len() {
        match *place {
            Place::End => return Ok(at),
            Place::Data { left } if left > 0 => {
                let count = left.min(bytes.len() - at);
                content.extend_from_slice(&bytes[at..at + count])?;
                *place = Place::Data { left: left - count };
                at += count;
            }
            _ => match step(*place, content.len(), bytes[at]) {
                Ok(next) => {
                    *place = next;
                    at += 1;
                }
                Err(error) => return Err(error),
            },
        }
    }
    Ok(at)
}
