//! What only a bucket's keeper changes of the bucket: its part. These types are for the proofs alone: no value of them is made, and a
//! `u64` in them is any natural number.
use sc_bucket::Phase;
use sc_cluster::Slice;
use sc_record::{CoreId, Entry};
use sc_ulog::Mode;
use std::collections::LinkedList;

/// A core as its keeper left it.
pub struct CorePart {
    /// The name of its seat.
    pub name: CoreId,
    pub number: u64,
    /// The mode of its log.
    pub mode: Mode,
    /// How many writes it has still to replay.
    pub left: u64,
}

/// A feed as its keeper left it.
pub struct FeedPart {
    /// The core that is fed.
    pub core: CoreId,
    /// The row of the snapshot that comes next.
    pub next: u64,
    /// How many rows there are.
    pub rows: u64,
}

/// What only the keeper of a bucket changes: the map, the phase, the cores, the feeds, and those of the journal's entries that no
/// other holder makes.
pub struct Part {
    pub map: LinkedList<Slice>,
    pub phase: Phase,
    pub cores: LinkedList<CorePart>,
    pub feeds: LinkedList<FeedPart>,
    pub entries: LinkedList<Entry>,
}
