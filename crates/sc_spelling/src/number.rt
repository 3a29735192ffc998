ghost use Rattle.std.specs.Prelude.{◌≡◌};
ghost use Rattle.std.specs.Int.{w16, w32, w64};
ghost use Rattle.sc_spelling.specs.Reading.{Gives, number_at, cut_text, text_at, flag_at};

use std::str;

/// The number that the first two bytes spell, and the bytes after them.
#[inline(always)]
pub fn u16_at(bytes: &[u8]) -> Option<(u16, &[u8])>
    ensures { Gives (λ x. (x.0, x.1.now)) result (number_at w16 bytes.now) }
{
    if bytes.len() < 2 {
        return None;
    }
    let (front, rest) = bytes.split_at(2);
    let number = u16::from_le_bytes([front[0], front[1]]);
    Some((number, rest))
}

/// The number that the first four bytes spell, and the bytes after them. `None` where there are fewer.
#[inline(always)]
pub fn u32_at(bytes: &[u8]) -> Option<(u32, &[u8])>
    ensures { Gives (λ x. (x.0, x.1.now)) result (number_at w32 bytes.now) }
{
    if bytes.len() < 4 {
        return None;
    }
    let (front, rest) = bytes.split_at(4);
    let number = u32::from_le_bytes([front[0], front[1], front[2], front[3]]);
    Some((number, rest))
}

/// The number that the first eight bytes spell, and the bytes after them. `None` where there are fewer.
#[inline(always)]
pub fn u64_at(bytes: &[u8]) -> Option<(u64, &[u8])>
    ensures { Gives (λ x. (x.0, x.1.now)) result (number_at w64 bytes.now) }
{
    if bytes.len() < 8 {
        return None;
    }
    let (front, rest) = bytes.split_at(8);
    let number = u64::from_le_bytes([
        front[0], front[1], front[2], front[3], front[4], front[5], front[6], front[7],
    ]);
    Some((number, rest))
}

/// The text of a length that two bytes before it spell, and the bytes after it. `None` where they are fewer or no UTF-8.
#[tactic(auto, unfolding(crate::specs::Reading::text_at))]
pub fn name_at(bytes: &[u8]) -> Option<(&str, &[u8])>
    ensures { Gives (λ x. (x.0.now, x.1.now)) result (text_at w16 bytes.now) }
{
    let (length, rest) = u16_at(bytes)?;
    cut_text(length as usize, rest)
}

/// The text of a length that four bytes before it spell, and the bytes after it. `None` where they are fewer or no UTF-8.
#[tactic(auto, unfolding(crate::specs::Reading::text_at))]
pub fn text_at(bytes: &[u8]) -> Option<(&str, &[u8])>
    ensures { Gives (λ x. (x.0.now, x.1.now)) result (text_at w32 bytes.now) }
{
    let (length, rest) = u32_at(bytes)?;
    cut_text(length as usize, rest)
}

/// The first so many bytes as a text, and those after them. `None` where there are fewer, or they are no UTF-8.
pub fn cut_text(length: usize, bytes: &[u8]) -> Option<(&str, &[u8])>
    ensures { Gives (λ x. (x.0.now, x.1.now)) result (cut_text length bytes.now) }
{
    if bytes.len() < length {
        return None;
    }
    let (text, rest) = bytes.split_at(length);
    match str::from_utf8(text) {
        Ok(text) => Some((text, rest)),
        Err(_) => None,
    }
}

// The truth that the first byte spells.
#[tactic(auto, unfolding(crate::specs::Reading::flag_at))]
#[inline(always)]
pub(crate) fn flag_at(bytes: &[u8]) -> Option<(bool, &[u8])>
    ensures { Gives (λ x. (x.0, x.1.now)) result (flag_at bytes.now) }
{
    match bytes {
        [0, rest @ ..] => Some((false, rest)),
        [1, rest @ ..] => Some((true, rest)),
        _ => None,
    }
}
