ghost use Rattle.std.specs.Prelude.{◌≡◌, slice_index};
ghost use Rattle.sc_keys.specs.Heads.{front_number};

/// The number that the first eight bytes make, the first of them worth most, with zeros after fewer bytes: the head of a key whose order
/// begins with that of these bytes.
pub fn front_number(bytes: &[u8]) -> u64
    ensures { result ≡ front_number 8 bytes.now }
{
    u64::from_be_bytes([
        byte_or_zero(bytes, 0),
        byte_or_zero(bytes, 1),
        byte_or_zero(bytes, 2),
        byte_or_zero(bytes, 3),
        byte_or_zero(bytes, 4),
        byte_or_zero(bytes, 5),
        byte_or_zero(bytes, 6),
        byte_or_zero(bytes, 7),
    ])
}

// The byte at this place, or zero after the last.
#[inline(always)]
fn byte_or_zero(bytes: &[u8], at: usize) -> u8
    ensures { result ≡ slice_index bytes.now at }
{
    if at < bytes.len() { bytes[at] } else { 0 }
}
