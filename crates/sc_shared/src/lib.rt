//! A collection that several threads share: each bucket and the board behind a lock of its own, and a desk for each thread over them.
//!
//! `Collection::new` puts the buckets and the board behind locks, and gives the first passes. `split_passes` gives another thread its
//! own, `join_passes` brings two together again. `Shared` is the desk of one thread: it has that thread's passes, and keeps every clause
//! of `sc_collection`'s `Desk`, whatever the other threads do in between; so all that is proved over any desk holds of each thread. Its
//! type names the collection that it is over (`Home`), so that a call over any desk gives it back over the same one.
//!
//! It depends on `sc_lock`, whose locks it makes, and on `sc_collection`, whose `Desk` it is; on the buckets of `sc_bucket` and the board
//! of `sc_board`, which stand behind its locks; on the map of `sc_cluster`, and on the entries of `sc_record`. A bucket is kept with its
//! number (`Numbered`), and its part is what its keeper alone changes (`sc_keeper`'s `Part`). The keepers of all buckets lie on the board
//! while no split runs; so the board (`KeptBoard`) has a badge of each bucket's lock, by which it is known that they are its keepers.
//! Beside it stands how many entries each journal had when the collection was opened, which no call changes. A keeper and a pass of one
//! thread learn from each other what was seen (`sc_lock`'s `show` and `meet`), so that what a keeper finds extends what the thread has
//! seen, and the other way round.
//!
//! Who holds the board may wait for a bucket, and nobody who holds a bucket waits for the board or for another bucket.
//!
//! Proved: `Shared` keeps the clauses of `Desk`: what is handed out is sound, the bucket that was asked for, and extends what was seen;
//! its keeper finds its part as it left it; a board that has the keepers has each bucket at rest. What two passes have seen of a lock are
//! beginnings of one journal, and no entry is of both (`join_passes`).
//!
//! Tested alone: that two desks of one thread hold two buckets at once; that two threads lose no commit; requests amid a split.
//!
//! Neither: that each bucket has a lock of its own; that threads run beside each other; that a hold ends.
#![tactic(auto)]

// What each lock keeps.
mod board;
mod keepers;
mod numbered;

// The locks, the passes of a thread, and its desk.
mod collection;
mod holding;
mod passes;
mod shared;

pub use board::KeptBoard;
pub use collection::Collection;
pub use keepers::Keepers;
pub use numbered::Numbered;
pub use passes::Passes;
pub use shared::{Home, Shared};
