ghost use Rattle.std.specs.Prelude.{◌≡◌, ◌≤◌, ◌⊎◌, ◌↔◌, false, List, ℕ, [], ◌++◌, length, take, IfOk, IfErr, IsTrue};
ghost use Rattle.sc_chunks.specs.Endings.{partial, EndsCoding};
ghost use Rattle.sc_chunks.specs.Progress.{EndsBy, IsCodingOf, IsWhole, Reaches};

use crate::advance::advance;
use crate::error::DecodeError;
use crate::place::Place;
use std::alloc::Global;

/// The most bytes of a coding.
const MAX_CODING: usize = 33_554_432;

/// The data of a coding, as far as its bytes have come. It keeps nothing else of them, and what a chunk line announces
/// allocates nothing.
#[derive(Debug, Drop)]
pub struct Decoder {
    content: Vec<u8>,
    place: Place,
    /// How many more bytes the coding may have.
    room: usize,
}

impl Decoder {
    /// Before the first byte of a coding.
    pub fn new(alloc: Global) -> Decoder
        ensures { Reaches [] result }
    {
        Decoder {
            content: Vec::new(alloc),
            place: Place::Digits { size: 0, count: 0 },
            room: MAX_CODING,
        }
    }

    /// Takes the next bytes of the coding, in pieces of any size, and answers how many: all, unless the coding is whole.
    /// After an error nothing is known of the decoder, and it is of no more use.
    pub fn take(&mut self, bytes: &[u8]) -> Result<usize, DecodeError>
        ensures within { IfOk result (λ count. count ≤ length bytes.now) }
        ensures all { IfOk result (λ count. (count ≡ length bytes.now) ⊎ IsWhole self.new) }
        ensures goes_on { (coded : List ℕ) → Reaches coded self.old → IfOk result (λ count. Reaches (coded ++ take count bytes.now) self.new) }
        ensures refuses { (coded : List ℕ) → Reaches coded self.old → IfErr result (λ error. EndsBy error (coded ++ bytes.now)) }
    {
        let window = &bytes[..bytes.len().min(self.room)];
        let count = advance(&mut self.content, &mut self.place, window)?;
        self.room -= count;
        if window.len() < bytes.len() && !self.is_whole() {
            return Err(DecodeError::TooLarge);
        }
        Ok(count)
    }

    /// Whether the coding is whole.
    pub fn is_whole(&self) -> bool
        ensures whole { IsTrue result ↔ IsWhole self.now }
        ensures unfinished { (coded : List ℕ) → Reaches coded self.now → result ≡ false → EndsCoding coded partial }
    {
        matches!(self.place, Place::End)
    }

    /// The data of a whole coding.
    pub fn into_data(self) -> Vec<u8>
        ensures { (coded : List ℕ) → Reaches coded self → IsWhole self → IsCodingOf result.items coded }
    {
        let Decoder {
            content,
            place: _,
            room: _,
        } = self;
        content
    }
}
