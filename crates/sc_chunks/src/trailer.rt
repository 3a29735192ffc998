ghost use Rattle.std.specs.Prelude.{◌≡◌, ◌<◌, true, Bool, List, ℕ, length};
ghost use Rattle.sc_chunks.specs.Coding.{coding_limit};
ghost use Rattle.sc_chunks.specs.Progress.{InTrailer, IsStepOf};

use crate::error::DecodeError;
use crate::place::Place;

/// The most bytes of trailer lines with their line ends.
const MAX_TRAILERS: usize = 65_536;

/// Takes a byte after the last chunk line and trailer lines of `size` bytes, where `count` bytes of the next line came,
/// or of the empty line after them. `named`: a colon stands after its first byte. `returned`: its last byte is CR.
pub(crate) fn after_trailer(
    size: usize,
    count: usize,
    named: bool,
    returned: bool,
    byte: u8,
) -> Result<Place, DecodeError>
    ensures { (coded content : List ℕ) → InTrailer coded content size count named returned → length coded < coding_limit
        → IsStepOf coded byte content result }
{
    if returned && byte == b'\n' {
        after_line_feed(size, count, named)
    } else {
        after_text(size, count, named, byte)
    }
}

/// Takes the LF that ends a trailer line, or the empty line after them.
fn after_line_feed(size: usize, count: usize, named: bool) -> Result<Place, DecodeError>
    ensures { (coded content : List ℕ) → InTrailer coded content size count named true → length coded < coding_limit
        → IsStepOf coded 10 content result }
{
    if count == 1 {
        return Ok(Place::End);
    }
    if !named || size.saturating_add(count) >= MAX_TRAILERS {
        return Err(DecodeError::Malformed);
    }
    Ok(Place::Trailer {
        size: size + count + 1,
        count: 0,
        named: false,
        returned: false,
    })
}

/// Takes a byte that ends no line.
fn after_text(size: usize, count: usize, named: bool, byte: u8) -> Result<Place, DecodeError>
    ensures { (coded content : List ℕ) (returned : Bool) → InTrailer coded content size count named returned
        → ¬ ((returned ≡ true) × (byte ≡ 10)) → IsStepOf coded byte content result }
{
    if count == 0 && byte == b'\r' {
        return Ok(Place::Trailer {
            size,
            count: 1,
            named: false,
            returned: true,
        });
    }
    if size.saturating_add(count) >= MAX_TRAILERS {
        return Err(DecodeError::Malformed);
    }
    Ok(Place::Trailer {
        size,
        count: count + 1,
        named: named || (count > 0 && byte == b':'),
        returned: byte == b'\r',
    })
}
