//! A collection as its users find it: a desk that hands out one bucket at a time, and its board, and takes them back; the commit of all
//! buckets; what a search takes of each; and the trail on which a connection keeps where it read and wrote.
//!
//! It depends on `sc_bucket` and `sc_board`, whose buckets and board a desk hands out, on `sc_keeper`, which says what of a bucket only its
//! keeper changes, on `sc_seen`, which says what is seen of all that, and on `sc_io`, whose hosts say which nodes could not be reached
//! (`NotesDowns` ties the cores that orders noted as down to those). Besides it takes the first map from `sc_cluster`, searchers from
//! `sc_replicas`, a route from `sc_hash`, limits from `sc_record` and `sc_router`, and from `http_server` a log that only proofs read. The
//! layers above use the clauses of `Desk`, whichever desk it is, and those of `commit_all` and `take_searchers`. What a desk hands out is
//! sound, and its journal extends what was seen of it. To whom it comes by it takes a bucket back with one event of the bucket's own at
//! most (`sc_bucket`'s `IsStep`), which leaves the keeper's part as it was; to its keeper it hands the bucket out with the part as the
//! keeper left it, and takes it back with one event of the keeper's at most (`sc_handover`'s `IsKeeperEvent`). The board it hands out has
//! the keepers of all buckets while no split runs, and each bucket is then as the board says. `Alone` keeps all buckets in a plain list,
//! for one thread. A desk keeps each bucket in a slot (`FullSlot`, and `EmptySlot` while the bucket is out), which is small: one copy takes
//! a bucket out, another puts it back, and neither takes memory. What stood in the journals when a collection was opened (`OpenedWith`) is
//! nobody's own; of a new one that is nothing, and of one that is opened with buckets and a board all that they have.
//!
//! Proved: `Alone` keeps the clauses of `Desk`: what it hands out is sound, the bucket that was asked for, with the part that its keeper
//! left, and extends what was seen; the board that it hands out is sound, and where it has the keepers each bucket has the board's map, no
//! split open, each core active, no feed, and of its keeper's entries just those that go with the board's, beside those that say that a
//! core is up again or leads. Each shape gives its layout. `Alone::of` is just the desk over the buckets and the board that are handed in,
//! where each bucket is as the board says (`MayBeOpened`). `commit_all` over any desk commits every bucket in order, each at its stop, and
//! reports the worst that came of it (`CommitsAll`). `take_searchers` looks at a bucket at a stop of its own, and takes the searchers of
//! the slices that a route asks for (`AreAsked`). A `Trail` has the stops that it was given, in order, and a count of requests, and is full
//! exactly at the limits of a connection.
//!
//! Tested alone: collections of several buckets, through `serve`.
//!
//! Neither: that a desk is fair, or fast.
#![tactic(auto)]

// What is kept of a connection.
mod packed;
mod trail;

// How buckets and the board are handed out.
mod alone;
mod desk;
mod opened;
mod shape;
mod slot;

// The commit of all buckets.
mod commits;

// What a search takes of a bucket.
mod looking;

pub use alone::Alone;
pub use commits::{Commits, commit_all};
pub use desk::{Desk, Parts};
pub use looking::take_searchers;
pub use opened::OpenedWith;
pub use sc_board::{Board, BoardFault, Cut, DropFault};
pub use sc_seen::{BoardEntry, Stop};
pub use shape::Shape;
pub use slot::{EmptySlot, FullSlot};
pub use trail::Trail;
