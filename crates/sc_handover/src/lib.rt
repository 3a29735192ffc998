//! The events of a split of one bucket, and those that change which cores serve. A parent's rows are fed to the leaders of its subs,
//! what these buffered meanwhile is replayed, their followers are made in the same way, and then the bucket switches to the subs, or
//! the split is given up; updates, deliveries and commits may come between any two of these steps (Solr Reference Guide, "Shard
//! Management", SPLITSHARD). While no split is open a follower that is down rejoins as a new core, which is fed and replays as one of a
//! sub does, and a follower takes the lead of its slice.
//!
//! Each call is one event. It asks for `IsSound` and its own condition in `specs/Conditions`, keeps `IsSound`, and changes what its
//! definition in `specs/Events` or `specs/Seats` says and nothing else. Only `begin`, `grow` and `rejoin` take memory. It depends on
//! `sc_bucket`, and does no input and no output.
//!
//! Proved: the eleven events, each with its condition and its change, keep `IsSound`: `begin`, with its full log both ways, asks
//! for room for an entry of each follower of its slices too, and changes nothing but room if it is refused; `feed_piece` looks at
//! 64 rows at most and `replay_piece` applies 64 writes at most, of one core; `grow`, refused, has delivered messages and no more;
//! `switch` leaves every core of each sub with the last write of each id of its range (clause `last`); `abort` leaves the parent's
//! cores and searchers as they were, and `drop_shard` those of all other slices (`sc_world`'s `splits_leave_others_alone` says so
//! of all nine of a split); `rejoin`, with its full log both ways, puts a new core with the number of the one that was down in its
//! place, to be fed its leader's cells as they are, and changes nothing but room if it is refused; `take_lead` delivers what is in
//! flight to the follower, exchanges the two cores' seats, and leaves the slice with a leader that has the last write of each id of
//! its range and whose next version is above each earlier one (clause `whole`). None adds, moves or takes away a write; only
//! `take_lead` says of a core that it is down, and only `rejoin` that one is up (`entries`).
//!
//! Neither: speed; that no other takes memory shows in their signatures.
#![tactic(auto)]

// A split begins.
mod beginning;

// The cores of the subs are made.
mod feed;
mod following;
mod getting_ready;
mod growing;
mod replay;

// A split ends, and what it left is taken away.
mod aborting;
mod drop;
mod switching;

// Which cores serve.
mod leading;
mod rejoining;

pub use aborting::abort;
pub use beginning::{BeginFault, begin};
pub use drop::drop_shard;
pub use feed::feed_piece;
pub use getting_ready::ready;
pub use growing::grow;
pub use leading::take_lead;
pub use rejoining::{RejoinFault, rejoin};
pub use replay::{replay_piece, start_replay};
pub use switching::switch;
