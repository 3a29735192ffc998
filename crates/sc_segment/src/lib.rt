//! Posting lists: which rows have a key, found by a search among the keys that counts its comparisons.
//!
//! A `Builder` takes pairs of a row and a key, which it finds by its hash, and becomes a `Segment`, which has the keys in order and gives
//! the rows of a key. Where some rows change, `Segment::carried` gives the segment of the new rows out of the old one and a small one
//! of what changed, by a `Moved`, which has the new number of each old row. `Segment::carried_in_place` gives it where each
//! row that stays keeps its number: the rows of keys that lose none are copied, with no look-up for each. The crate depends on `sc_keys`
//! for the keys and how one is sought, and on `sc_rows` for lists of rows. Contracts see a builder's index and
//! a segment as the list of the distinct keys with their rows, and a layer above says by `IsIndexOf` which
//! pairs it has added: `Segment::postings` then gives a filter of these pairs, and `Steps` bounds the number
//! of comparisons. `proofs/IndexLemmas.antt` says of which pairs an index in order is one, by the rows that it has for each key.
//!
//! Proved: `Segment::postings` gives exactly the rows of a key, ascending and each once, within a bound on comparisons;
//! `Segment::carried`, as `Segment::carried_in_place`, has for each key exactly the rows that stay, under their new numbers, and those
//! that are added.
//!
//! Neither: speed.
#![tactic(auto)]

mod builder;
mod carrying;
mod flat_index;
mod placing;
mod segment;
mod staying;
mod tally;

pub use builder::Builder;
pub use segment::Segment;

// What callers of these name.
pub use sc_keys::{Key, Steps};
pub use sc_rows::LiveBits;
