//! One bucket: the journal of its ids, its own copy of the cluster's map, and the cells of its cores, whose list is that of
//! `sc_replicas`. Each event of it is one call, which keeps what `IsSound` says of every bucket, and changes what its own definition
//! in `specs/Events` says.
//!
//! Proved: `accept`, `deliver`, `deliver_nth`, `settle`, `commit` and `detach` keep what `IsSound` says of a bucket, and do what
//! `specs/Events` says: `accept` gives the answer of `IsOutcome`, both ways, with a version after its leader's clock, sends the
//! write to each other core that takes its hash and is not down, and changes nothing but room if it refuses; `deliver` hands one
//! message to its core, and `deliver_to` the write's to one core alone; `next_core` says to which core a write's next message
//! goes, on which node the core in that seat is, and whether it may be marked as down;
//! `settle` delivers what is left of a write's, so that none of a settled write is in flight; `commit` gives
//! each active slice a searcher of its leader's cells, is refused for a full log exactly if the journal has no room for one entry
//! more than it owes, and changes nothing if it is refused; `detach` marks a follower as down, which keeps what it has, and
//! leaves the messages to it out; `can_detach` says exactly of which cores it may be called, and `is_down` exactly which cores
//! the journal says are down; `seat_of` gives the seat of a core by its number; `read` gives the last write of the id, and `nth`
//! that of each id that was ever written, each once; `searchers` gives the searchers of the active slices that a route asks for;
//! `is_settled` says whether an entry settles a write, `Journal::last` lends the last entries, the oldest of them first, exactly
//! where no write among them was let go, and `Journal::uncommitted_writes` the writes after the last entry that commits, of which
//! `changes_in` gives the last of each id in a range. Where an entry commits, the writes before it are let go; where a log file is
//! asked (`await_file`), as far as it has them (`note_filed`). By `IsSound`, in and between splits,
//! each core of a slice that is not inactive, unless it is down, has the last write of each id of its range, or it is pending for
//! it (in flight, in its update log, or among the rows that it is still to be fed); only the cores of a slice that a split is
//! making and, while no split is open, the followers of active slices may be catching up, by a feed or a replay, and each other
//! core is active; each core has the mark and the number that the journal gives to its seat; no message is in flight to a core
//! that is down, and each searcher has of each id of its range the last write before the last commit; ids of a core ascend, no
//! cell is newer than its core's clock, and an active core buffers nothing; the snapshots of searchers and feeds have the places
//! at which they were taken.
//!
//! Tested alone: the worked orders; a full log; two and three replicas; two commits of two shards.
//!
//! Neither: speed: a look-up is one binary search, an accepted order moves the shorter side of one list at most, and a delivery
//! the same, by construction; so do `searchers` go once over the map and once over the searchers, `next_core` look for its core
//! once, and `Journal::last` look at no other entries; so does a commit look at no row but those of what was written since the last commit, and at none of a
//! slice in whose range nothing was, but right after a switch: then it looks once at each row of the searcher that the switch handed
//! on, to take those of the slice's range, and files no term of any.
#![tactic(auto)]

// What a bucket keeps.
mod entries;
mod feed;
mod feeds;
mod flight;
mod journal;
mod last;
mod lists;
mod message;
mod phase;
mod spares;
mod unsettled;

// The bucket, and its events.
mod accept;
mod bucket;
mod changes;
mod commit;
mod deliver;
mod detach;
mod filing;
mod nth;
mod searcher;
mod searchers;
mod seats;
mod settle;
mod targets;

pub use accept::{AcceptFault, Accepted};
pub use bucket::Bucket;
pub use changes::changes_in;
pub use commit::{CommitFault, searchers_at};
pub use entries::{Entries, EntryRef};
pub use feed::Feed;
pub use feeds::Feeds;
pub use flight::Flight;
pub use journal::Journal;
pub use message::Message;
pub use phase::Phase;
pub use sc_replicas::{Searcher, Standing};
pub use spares::hand_on;
pub use targets::Target;
pub use unsettled::Unsettled;

// What an entry takes in a journal, besides what it shares or what a split notes.
const _: () = prove!(size_of::<entries::Mark>() == 1);

const _: () = prove!(size_of::<sc_record::Cell>() == 8);
