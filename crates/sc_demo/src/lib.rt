//! A demonstration: several workers make a workload while its shard is split beside them, and six lines tell what came of it.
//!
//! `run_demo` makes a collection of one shard with one replica and 64 buckets, starts its cores, and runs a maker in each of so many threads: the
//! workers, each of which makes its orders of the workload (`write`), and after them the one that splits `shard1` in two (`split_first`). Each
//! has a crew of the station and passes of its own. Then their passes are joined, every bucket is committed, and three searches count what is
//! there (`count_on`). `write`, `split_first` and `count_on` work over any `Desk`.
//!
//! It depends on `sc_workload` for the orders, on `sc_update`, `sc_split` and `sc_fanout`, whose clauses it uses, on `sc_shared` for the desk of
//! each thread, and on `sc_server` for what a station reports of its crews. `run_demo` waits for its makers, a hold of `sc_shared` for a
//! lock, and a search for the threads of its parts.
//!
//! Proved of `run_demo` (`EndsDemo`): which status comes when, with its cause in the sink or the hosts; that each crew that the station gave is
//! back; and where all makers worked (`Demonstrates`), that each did what it was to do over passes of one collection, what all of them have seen
//! are beginnings of one journal for each bucket and the board, and no two of them made the same entry. Of what they made together the lines then
//! tell (`SaysOf`) how many writes that were, `done` exactly where one of their entries of the board says so, and each document's writes are
//! those of all its orders, in order, unless a bucket's journal came near its limit. The three numbers are those of searches after every bucket
//! was committed (`CommitsAndFinds`), and what is told of a split that was refused is its answer (`SplitsFirst`).
//!
//! Tested alone: that the lines are the same for 1, 4 and 8 workers, and what two faults lead to (`sc_tests`).
//!
//! Neither: that makers run beside each other, and that no other write stands in the collection.
#![tactic(auto)]

// The orders of a worker, and what came of them.
mod made;
mod writing;

// The split beside the workers.
mod splitting;

// What is found after them, and what is told.
mod counting;
mod lines;

// One maker in its thread, and all makers.
mod maker;
mod makers;
mod needs;
mod task;

// The whole of a demonstration.
mod demo;
mod telling;

pub use counting::{Found, count_on};
pub use demo::run_demo;
pub use lines::{lines_of, split_text};
pub use made::Written;
pub use splitting::split_first;
pub use writing::write;
