//! Where a document's hash comes from and which part of the hashes a slice has: MurmurHash3 x86_32,
//! and ranges of signed 32-bit hashes with the text that shows them. It depends on std alone.
//! The layers above use the contract of `murmur3`, which names the public standard's hash of a list of
//! bytes, those of `Hasher`, which is seen as its progress in bytes that come one by one and gives the same hash,
//! and those of `Range`, whose every value has min <= max.
//!
//! Proved: `murmur3` is MurmurHash3 x86_32 of the bytes, and `Hasher::finish` that of the bytes that were written; a `Range`
//! never has its least above its greatest; `range_text` writes a range, and `parse_range` reads exactly the texts that stand
//! for one.
//!
//! Tested alone: the published hashes.
//!
//! Neither: speed.
#![tactic(auto)]

mod hash;
mod hasher;
mod range;
mod text;

pub use hash::murmur3;
pub use hasher::Hasher;
pub use range::Range;
pub use text::{parse_range, range_text};
