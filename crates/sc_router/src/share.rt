//! What a part before the last gives to the hash.

ghost use Rattle.std.specs.Prelude.{◌≡◌, ◌≤◌, ◌*◌, ◌+◌, ◌/◌, ◌%◌, ◌^◌, IfSome};
ghost use Rattle.sc_hash.specs.Hash.{murmur3};
ghost use Rattle.sc_router.specs.Parts.{digit_of, stated_count, key_part, bits_of};

use crate::part::Part;

// A decimal digit's value.
fn digit_of(byte: u8) -> Option<u32>
    ensures value { result ≡ digit_of byte }
    ensures most { IfSome result (λ digit. digit ≤ 9) }
{
    if byte.is_ascii_digit() {
        Some(u32::from(byte - b'0'))
    } else {
        None
    }
}

// The bit count that one or two decimal digits state, where it is at most 32.
fn stated_count(text: &[u8]) -> Option<u32>
    ensures value { result ≡ stated_count text.now }
    ensures most { IfSome result (λ count. count ≤ 32) }
{
    match *text {
        [ones] => digit_of(ones),
        [tens, ones] => {
            let count = 10 * digit_of(tens)? + digit_of(ones)?;
            if count <= 32 { Some(count) } else { None }
        }
        _ => None,
    }
}

/// The hash of a part's key, and the bit count that the part states or else the other one.
pub(crate) fn key_and_count(part: &Part, unstated: u32) -> (u32, u32)
    requires { unstated ≤ 32 }
    ensures key { result.0 ≡ murmur3 (key_part part.now.text.now) 0 }
    ensures count { result.1 ≡ bits_of unstated part.now.text.now }
    ensures most { result.1 ≤ 32 }
{
    let Some(slash) = part.slash else {
        return (part.hash, unstated);
    };
    if slash.at == 0 {
        return (part.hash, unstated);
    }
    match stated_count(&part.text[slash.at + 1..]) {
        Some(count) => (slash.hash, count),
        None => (part.hash, unstated),
    }
}

/// The bits of `high` from bit `count` up, and the lowest `count` bits of `low`.
pub(crate) fn joined(high: u32, low: u32, count: u32) -> u32
    requires { count ≤ 32 }
    ensures { result ≡ high / 2 ^ count * 2 ^ count + low % 2 ^ count }
{
    let mask = ((1u64 << count) - 1) as u32;
    high & !mask | low & mask
}
