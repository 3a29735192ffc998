ghost use Rattle.std.specs.Prelude.{◌≡◌, ◌+◌, ◌<◌, ◌≤◌, length, IsSome, IfSome, ◌↔◌};
ghost use Rattle.std.specs.Cmp.Lexicographic.{slice_cmp};
ghost use Rattle.std.specs.Ordering.{nat_cmp};
ghost use Rattle.std.specs.Str.{bytes_eq};
ghost use Rattle.sc_values.specs.declared.short.TheConstants.{MAX_SHORT_LENGTH};
ghost use Rattle.sc_values.specs.Shorts.{eight_bytes_at, words_cmp};

use std::cmp::Ordering;
use std::marker::Model;
use std::str;

/// The most bytes of a text that lies in the value itself, so that a `Text` takes 16 bytes.
const MAX_SHORT_LENGTH: usize = 14;

/// A text of at most 14 bytes, which lies in the value itself, and which contracts see as its UTF-8 bytes. Zeros follow them, so that two
/// texts compare by words, whatever their lengths.
#[derive(Drop)]
pub struct Short {
    length: u8,
    bytes: [u8; MAX_SHORT_LENGTH],
}

impl Model for Short {
    ghost use Rattle.std.specs.Prelude.{List, ℕ, take};
    ghost use Rattle.sc_values.specs.Shorts.{IsShort};

    ghost Value = { List ℕ };

    ghost view = { λ a. take a.length a.bytes };

    ghost invariant = { λ a. IsShort a.length a.bytes };
}

impl Short {
    /// A copy of the text, where it is short enough.
    pub fn new(text: &str) -> Option<Short>
        ensures value { IfSome result (λ short. short ≡ text.now) }
        ensures short { IsSome result ↔ (length text.now ≤ MAX_SHORT_LENGTH) }
    {
        let length = text.len();
        if length > MAX_SHORT_LENGTH {
            return None;
        }
        let mut bytes = [0; MAX_SHORT_LENGTH];
        bytes[..length].copy_from_slice(text.as_bytes());
        Some(Short {
            length: length as u8,
            bytes,
        })
    }

    /// The same text.
    pub fn copy(&self) -> Short
        ensures { result ≡ self.now }
    {
        Short {
            length: self.length,
            bytes: copy_of(&self.bytes),
        }
    }

    pub fn as_str(&self) -> &str
        ensures { result.now ≡ self.now }
    {
        unsafe { str::from_utf8_unchecked(&self.bytes[..self.length as usize]) }
    }

    /// Whether the texts are the same.
    pub fn is_same(&self, other: &Short) -> bool
        ensures { result ≡ bytes_eq self.now other.now }
    {
        self.order(other).is_eq()
    }

    /// How the texts compare by their bytes.
    #[inline]
    pub fn order(&self, other: &Short) -> Ordering
        ensures { result ≡ slice_cmp nat_cmp self.now other.now }
    {
        match order_of_padded(&self.bytes, &other.bytes) {
            Ordering::Less => Ordering::Less,
            Ordering::Equal => self.length.cmp(&other.length),
            Ordering::Greater => Ordering::Greater,
        }
    }
}

// The same bytes. They are copied by two, four and eight, which fit registers, as 14 do not.
fn copy_of(bytes: &[u8; MAX_SHORT_LENGTH]) -> [u8; MAX_SHORT_LENGTH]
    ensures { result ≡ bytes.now }
{
    let mut copy = [0; MAX_SHORT_LENGTH];
    copy[..2].copy_from_slice(&bytes[..2]);
    copy[2..6].copy_from_slice(&bytes[2..6]);
    copy[6..].copy_from_slice(&bytes[6..]);
    copy
}

// How the bytes compare.
fn order_of_padded(mine: &[u8; MAX_SHORT_LENGTH], others: &[u8; MAX_SHORT_LENGTH]) -> Ordering
    ensures { result ≡ slice_cmp nat_cmp mine.now others.now }
{
    order_of_words(mine, others)
}

// How the first eight bytes compare as a number, and where they are alike the last eight, which begin with two of the first.
fn order_of_words(mine: &[u8; MAX_SHORT_LENGTH], others: &[u8; MAX_SHORT_LENGTH]) -> Ordering
    ensures { result ≡ words_cmp mine.now others.now }
{
    let (first, other_first) = (eight_bytes_at(mine, 0), eight_bytes_at(others, 0));
    if first != other_first {
        return first.cmp(&other_first);
    }
    let (last, other_last) = (eight_bytes_at(mine, 6), eight_bytes_at(others, 6));
    if last != other_last {
        return last.cmp(&other_last);
    }
    Ordering::Equal
}

// The number that eight bytes from this place on spell, the greatest first.
fn eight_bytes_at(bytes: &[u8; MAX_SHORT_LENGTH], at: usize) -> u64
    requires { at ≤ 6 }
    ensures { result ≡ eight_bytes_at bytes.now at }
{
    u64::from_be_bytes([
        bytes[at],
        bytes[at + 1],
        bytes[at + 2],
        bytes[at + 3],
        bytes[at + 4],
        bytes[at + 5],
        bytes[at + 6],
        bytes[at + 7],
    ])
}
