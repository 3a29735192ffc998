//! A server: connections are accepted and served by several workers at once, each in a thread of its own, over one collection.
//!
//! `run_server` makes the collection, opens the port, starts the first cores, says that it listens, and runs the workers. Each worker has
//! a crew of the station (its clock, hosts, pace and listener), passes of its own, and a trail; it is one call of `sc_session`'s `work`
//! over a `Shared` desk, so each of its connections has the promise of `serve`.
//!
//! It depends on `sc_session` for `work` and the traits `Station` and `Listener`, and on `sc_shared` for the desk. `run_server`
//! waits for its workers, a hold of `sc_shared` for a lock, and a search for the threads of its parts.
//!
//! Proved of `run_server` (`EndsServer`): which status comes when, with its cause in the station, the sink, the hosts or a listener; that
//! the port that was asked for was opened; which cores are started where one of the first failed; that each crew that the station gave is
//! back (where no worker began: as it was given, all but the first one's hosts); and that in a run of all workers (`RunsServer`) each did
//! what `work` promises over passes of one collection of the shape that was asked for, what all of them have seen are beginnings of one
//! journal for each bucket and the board, and no two of them made the same entry (`IsOneStory`).
//!
//! Tested alone: two workers, of which one serves amid the other's connection; the statuses of a port and of a line that fail.
//!
//! Neither: that the port is opened before the workers run; that workers run beside each other; that a worker ends.
#![tactic(auto)]

// One worker in its thread.
mod clock;
mod worker;

// All workers, from the port to the status.
mod needs;
mod server;

pub use server::run_server;
