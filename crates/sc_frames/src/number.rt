ghost use Rattle.std.specs.Prelude.{◌≡◌};
ghost use Rattle.sc_spelling.specs.Reading.{number_at, text_at};
ghost use Rattle.sc_frames.specs.Reading.{Gives, byte_at};
ghost use Rattle.std.specs.Int.{w16, w32, w64};

use crate::fault::BodyFault;

// The first byte, and those after it.
pub(crate) fn byte_of(bytes: &[u8]) -> Result<(u8, &[u8]), BodyFault>
    ensures { Gives (λ x. (x.0, x.1.now)) result (byte_at bytes.now) }
{
    match bytes {
        [byte, rest @ ..] => Ok((*byte, rest)),
        [] => Err(BodyFault::NotEntries),
    }
}

// The number that the first four bytes spell, and the bytes after them.
pub(crate) fn u32_of(bytes: &[u8]) -> Result<(u32, &[u8]), BodyFault>
    ensures { Gives (λ x. (x.0, x.1.now)) result (number_at w32 bytes.now) }
{
    sc_spelling::u32_at(bytes).ok_or(BodyFault::NotEntries)
}

// The number that the first eight bytes spell, and the bytes after them.
pub(crate) fn u64_of(bytes: &[u8]) -> Result<(u64, &[u8]), BodyFault>
    ensures { Gives (λ x. (x.0, x.1.now)) result (number_at w64 bytes.now) }
{
    sc_spelling::u64_at(bytes).ok_or(BodyFault::NotEntries)
}

// The text of a length that two bytes before it spell, and the bytes after it.
pub(crate) fn name_of(bytes: &[u8]) -> Result<(&str, &[u8]), BodyFault>
    ensures { Gives (λ x. (x.0.now, x.1.now)) result (text_at w16 bytes.now) }
{
    sc_spelling::name_at(bytes).ok_or(BodyFault::NotEntries)
}

// The text of a length that four bytes before it spell, and the bytes after it.
pub(crate) fn text_of(bytes: &[u8]) -> Result<(&str, &[u8]), BodyFault>
    ensures { Gives (λ x. (x.0.now, x.1.now)) result (text_at w32 bytes.now) }
{
    sc_spelling::text_at(bytes).ok_or(BodyFault::NotEntries)
}
