//! MurmurHash3 x86_32 of bytes that come one by one.

ghost use Rattle.std.specs.Prelude.{◌≡◌, ℕ, ◌+◌, ◌*◌, ◌^◌, ◌<◌, List, [], ◌∷◌, ◌++◌, length};

use crate::hash::{after_word, final_mix, word_mix};
use std::marker::Model;

/// The hash of bytes that are written one by one, which contracts see as its progress in them. It keeps the hash
/// after their whole words of four, the word of the at most three bytes after these, and how many bytes there
/// were, as a number of 32 bits.
#[derive(Drop)]
pub struct Hasher {
    hash: u32,
    word: u32,
    count: u32,
}

impl Model for Hasher {
    ghost use Rattle.std.specs.Prelude.{◌*◌, ◌%◌, ◌^◌, ◌<◌};
    ghost use Rattle.sc_hash.specs.Hasher.{Progress};

    ghost Value = { Progress };

    ghost view = { λ a. record { hash = a.hash; word = a.word; count = a.count } };

    ghost invariant = { λ a. a.word < 2 ^ (8 * (a.count % 4)) };
}

// A word with one more byte above the others that it has.
fn with_byte(word: u32, place: u32, byte: u8) -> u32
    requires place { place < 4 }
    requires below { word < 2 ^ (8 * place) }
    ensures value { result ≡ word + byte * 2 ^ (8 * place) }
    ensures below { result < 2 ^ (8 * (place + 1)) }
{
    word | u32::from(byte) << (8 * place)
}

impl Hasher {
    ghost use Rattle.sc_hash.specs.Hash.{murmur3};
    ghost use Rattle.sc_hash.specs.Hasher.{progress};

    pub fn new(seed: u32) -> Hasher
        ensures { result ≡ progress seed [] }
    {
        Hasher {
            hash: seed,
            word: 0,
            count: 0,
        }
    }

    pub fn write(&mut self, byte: u8)
        ensures { (seed : ℕ) (text : List ℕ) → self.old ≡ progress seed text
            → self.new ≡ progress seed (text ++ byte ∷ []) }
    {
        let place = self.count % 4;
        let word = with_byte(self.word, place, byte);
        self.count = self.count.wrapping_add(1);
        if place == 3 {
            self.hash = after_word(self.hash, word);
            self.word = 0;
        } else {
            self.word = word;
        }
    }

    /// Writes four bytes: in one step where no other bytes wait.
    pub fn write_word(&mut self, bytes: [u8; 4])
        ensures { (seed : ℕ) (text : List ℕ) → self.old ≡ progress seed text
            → self.new ≡ progress seed (text ++ bytes) }
    {
        if self.count % 4 == 0 {
            self.hash = after_word(self.hash, u32::from_le_bytes(bytes));
            self.count = self.count.wrapping_add(4);
        } else {
            let [a, b, c, d] = bytes;
            self.write(a);
            self.write(b);
            self.write(c);
            self.write(d);
        }
    }

    /// The hash of what was written so far; more can be written after it.
    pub fn finish(&self) -> u32
        ensures { (seed : ℕ) (text : List ℕ) → self.now ≡ progress seed text → length text < 2 ^ 32
            → result ≡ murmur3 text seed }
    {
        final_mix(self.hash ^ word_mix(self.word) ^ self.count)
    }
}
