//! MurmurHash3 x86_32, the public standard by Austin Appleby.

ghost use Rattle.std.specs.Prelude.{◌≡◌, ◌^◌, ◌<◌, length};
ghost use Rattle.sc_hash.specs.Hash.{word_mix, after_word, after_text, final_mix, murmur3};

// What a word adds to the hash.
#[tactic(auto, unfolding(crate::specs::Hash::word_mix))]
pub(crate) fn word_mix(word: u32) -> u32
    ensures { result ≡ word_mix word }
{
    word.wrapping_mul(0xcc9e_2d51)
        .rotate_left(15)
        .wrapping_mul(0x1b87_3593)
}

#[tactic(auto, unfolding(crate::specs::Hash::after_word))]
pub(crate) fn after_word(hash: u32, word: u32) -> u32
    ensures { result ≡ after_word hash word }
{
    (hash ^ word_mix(word))
        .rotate_left(13)
        .wrapping_mul(5)
        .wrapping_add(0xe654_6b64)
}

// The hash after the last bytes, which are too few for a whole word.
#[tactic(auto, unfolding(crate::specs::Hash::after_text))]
fn after_rest(hash: u32, rest: &[u8]) -> u32
    requires { length rest.now < 4 }
    ensures { result ≡ after_text hash rest.now }
{
    match *rest {
        [a] => hash ^ word_mix(u32::from_le_bytes([a, 0, 0, 0])),
        [a, b] => hash ^ word_mix(u32::from_le_bytes([a, b, 0, 0])),
        [a, b, c] => hash ^ word_mix(u32::from_le_bytes([a, b, c, 0])),
        _ => hash,
    }
}

#[tactic(auto, unfolding(crate::specs::Hash::final_mix))]
pub(crate) fn final_mix(mut hash: u32) -> u32
    ensures { result ≡ final_mix hash }
{
    hash ^= hash >> 16;
    hash = hash.wrapping_mul(0x85eb_ca6b);
    hash ^= hash >> 13;
    hash = hash.wrapping_mul(0xc2b2_ae35);
    hash ^ hash >> 16
}

/// The MurmurHash3 x86_32 of `bytes` with a seed, as the public standard by Austin Appleby defines it.
/// The length is part of what is hashed, as a number of 32 bits.
pub fn murmur3(bytes: &[u8], seed: u32) -> u32
    requires { length bytes.now < 2 ^ 32 }
    ensures { result ≡ murmur3 bytes.now seed }
{
    let word_count = bytes.len() / 4;
    let mut hash = seed;
    for i in 0..word_count {
        let at = 4 * i;
        let word = u32::from_le_bytes([bytes[at], bytes[at + 1], bytes[at + 2], bytes[at + 3]]);
        hash = after_word(hash, word);
    }
    let hash = after_rest(hash, &bytes[4 * word_count..]);
    final_mix(hash ^ bytes.len() as u32)
}
