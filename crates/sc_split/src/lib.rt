//! The driver of a split: it makes the cores of the new slices in every bucket of a collection, one event a hold, while updates, commits
//! and reads go on, and then puts the slices in their parent's place; or it leaves the map as it was.
//!
//! It depends on the clauses of any `Desk` and on the commit of all its buckets (`sc_collection`), on those of any `Hosts` and `Pace`
//! (`sc_io`), on the events of `sc_handover`, which it does by what a bucket's keeper knows of it (`sc_keeper`'s parts), on `sc_board`, on
//! the cores of `sc_cores`, on the plans of `sc_cluster`, and on the names and lists of `sc_record`. The layer above uses the clause of
//! `split` alone (`IsSplit`): what was noted on the board and in each bucket, which stops were kept, what was answered and why, which cores
//! are started, also after a refusal (`LeavesCores`), and that reaching no node failed.
//!
//! Proved: each event of one bucket by what its keeper knows of it, and the filling of its cores (`IsFilled`); over all buckets in turn,
//! that the split begins (`IsAtStage`, `IsUnbegun` where it did not), that its leaders are filled and ready, that its further replicas join
//! and are filled, that it is switched (`IsDoneIn`) or given up (`IsFailedIn`); the steps on the board (`Opens`, `Refuses`, `NotesOne`);
//! the names of its cores, and that these are started and stopped; and that all of them are made, or why not (`Builds`, `IsWholeSplit`,
//! `IsFault`). Above that the whole of `split`: what it leaves of the desk, the hosts and the trail, what it answers and why (`IsSplit`).
//!
//! Tested alone: nothing here; `sc_examples` splits beside a stop of the pace and a fault of the hosts at each place.
//!
//! Neither: speed; that the pace is asked after each piece; and the order of the steps in different buckets and of the starts of cores
//! beside them, as that further replicas are started only once the leaders are made, which holds by construction.
#![tactic(auto)]

// What a split comes to.
mod end;

// Which cores it makes.
mod cores;

// Its steps in one bucket, and in all.
mod bucket;
mod building;
mod ending;
mod filling;

// Its steps on the board, and all of it.
mod board;
mod driver;

pub use driver::split;
pub use end::SplitEnd;
