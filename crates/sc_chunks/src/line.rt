ghost use Rattle.std.specs.Prelude.{◌≡◌, ◌<◌, ◌⊎◌, false, List, ℕ, [], ◌∷◌, ◌++◌, length, None};
ghost use Rattle.std.specs.Char.{digit_value, is_ascii_hexdigit};
ghost use Rattle.sc_chunks.specs.Progress.{AtLine, BeforeReturn, InDigits, InExtension, InLine, InPad, IsSizeSoFar, IsStepOf};

use crate::error::DecodeError;
use crate::place::Place;
use httparse::parse_hex_digit;

/// The most digits of a size.
const MAX_DIGITS: usize = 16;

/// The most bytes of data.
const MAX_DATA: usize = 16_777_216;

/// Takes a byte of a chunk line after so many digits, which give this size.
pub(crate) fn after_digits(size: usize, count: usize, byte: u8) -> Result<Place, DecodeError>
    ensures { (coded content : List ℕ) → InDigits coded content size count → IsStepOf coded byte content result }
{
    match parse_hex_digit(byte) {
        Some(digit) => {
            if count >= MAX_DIGITS {
                return Err(DecodeError::Malformed);
            }
            Ok(Place::Digits {
                size: push_digit(size, digit as usize),
                count: count + 1,
            })
        }
        None if count == 0 => Err(DecodeError::Malformed),
        None => after_size(size, byte),
    }
}

/// The size with one more digit.
fn push_digit(size: usize, digit: usize) -> usize
    requires { digit < 16 }
    ensures { (digits : List ℕ) (byte : ℕ) → IsSizeSoFar size digits → digit ≡ digit_value byte → IsSizeSoFar result (digits ++ byte ∷ []) }
{
    if size > MAX_DATA {
        size
    } else {
        size * 16 + digit
    }
}

/// Takes a byte of a chunk line after the white space that follows its digits, if there is any.
pub(crate) fn after_size(size: usize, byte: u8) -> Result<Place, DecodeError>
    ensures { (coded content : List ℕ) (l : InLine coded content size) → l.line.extension ≡ None
        → (is_ascii_hexdigit byte ≡ false) ⊎ (0 < length l.line.pad) → IsStepOf coded byte content result }
{
    match byte {
        b' ' | b'\t' => Ok(Place::Pad { size }),
        b';' => Ok(Place::Extension { size }),
        b'\r' => Ok(Place::LineFeed { size }),
        _ => Err(DecodeError::Malformed),
    }
}

/// Takes a byte of a chunk line in its extension, which is ignored.
pub(crate) fn after_extension(size: usize, byte: u8) -> Result<Place, DecodeError>
    ensures { (coded content : List ℕ) → InExtension coded content size → IsStepOf coded byte content result }
{
    match byte {
        b'\r' => Ok(Place::LineFeed { size }),
        b'\n' => Err(DecodeError::Malformed),
        _ => Ok(Place::Extension { size }),
    }
}

/// Takes the byte after the CR of a chunk line, where so many bytes of data came before.
pub(crate) fn after_line_return(size: usize, have: usize, byte: u8) -> Result<Place, DecodeError>
    ensures { (coded content : List ℕ) → BeforeReturn (λ earlier. InLine earlier content size) coded → length content ≡ have
        → IsStepOf coded byte content result }
{
    if byte != b'\n' {
        return Err(DecodeError::Malformed);
    }
    if size > MAX_DATA.saturating_sub(have) {
        return Err(DecodeError::TooLarge);
    }
    if size == 0 {
        return Ok(Place::Trailer {
            size: 0,
            count: 0,
            named: false,
            returned: false,
        });
    }
    Ok(Place::Data { left: size })
}
