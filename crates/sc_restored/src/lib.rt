//! A bucket that is made of its journal, as a server does that reads the journal from a file. It depends on `sc_bucket`, whose definitions
//! its clauses cite, and on the crates of a bucket's parts.
//!
//! The layer above hands `restored` the first map, the limit and the journal, which is legal and leaves no split open, and goes on with the
//! bucket as with any other; `owed_after` tells what limit it needs.
//!
//! Proved: `restored` gives a bucket that is sound and has this journal; it is idle, nothing is in flight in it and nothing is fed; each core
//! is active, a core that the journal says is down has no cells, and each other the last write of each id of its slice's range, also where the
//! slice is inactive; each active slice has a searcher of what was committed there, taken at the last entry that commits.
//!
//! Tested alone: nothing.
//!
//! Neither: speed. By construction no entry is replayed: the journal is gone over a fixed number of times, and the hashes of its writes once
//! for each slice; the writes of a slice are sorted once by their ids, and each core takes its cells at the end of those that it has. Which
//! cores are down, and which sit where, is looked for among the entries of cores alone.
#![tactic(auto)]

// What a journal says of its map, of the writes that are not settled, and of a seat.
mod map;
mod marks;
mod unsettled;

// The writes of a journal, and of each id in a range the last.
mod cells;

// The cores, the searchers, and how many entries are owed.
mod filling;
mod owing;
mod replicas;
mod searchers;

// The bucket.
mod bucket;

pub use bucket::restored;
pub use owing::owed_after;
