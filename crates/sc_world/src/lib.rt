//! Everything that may happen to a bucket, as a list of events: updates, deliveries, commits, cores that go down, rejoin and take
//! the lead, and the steps of splits, in any order. Over every such list a bucket stays sound, and no write comes to its journal
//! but those of the orders that were accepted.
//!
//! It depends on `sc_bucket` and `sc_handover`, and does no input and no output. `can` says whether an event's condition holds,
//! `run_events` has the events of a list come.
//!
//! Proved: `can` is true exactly if an event's condition holds; `run_events` has each event of a list come whose condition
//! holds, passes over the others, stops if memory runs out, and keeps `IsSound`, and the journal gains just the writes of the
//! accepted orders, in order and each once (`Runs`). Laws in `specs/Laws`: `splits_keep_the_table`,
//! `given_up_splits_leave_nothing`, `followers_catch_up` (those that are not down, and so a core that was down and rejoined,
//! whatever came since), `splits_leave_others_alone` (an event of a split leaves the cores and searchers of all slices alone that
//! it is not about, and a core that is fed or replays every other core), `changes_of_cores_leave_others_alone` (a core that goes
//! down or rejoins changes no other core but its room, and one that takes the lead none but the core that led; none changes a
//! searcher), `events_are_of_the_table` (each event that comes is one of `sc_handover`'s `IsEvent`, whoever holds the bucket),
//! `buckets_come_to_rest` (a sound bucket can settle each write, end its split and drop its inactive slices within the entries
//! that it owes).
//!
//! Tested alone: worked splits of one shard, and cores that rejoin and take the lead; 33 lists of 4,411 events, drawn from fixed
//! seeds (`sc_examples`): after each event the bucket shows what a plain program of lists has, which was run when the lists were
//! made (`plain_bucket.py`).
#![tactic(auto)]

// What may happen, and when.
mod condition;
mod event;

// One event, and a list of them.
mod run;
mod step;

// What follows from the definitions.
mod laws;

pub use condition::can;
pub use event::Event;
pub use laws::{
    buckets_come_to_rest, changes_of_cores_leave_others_alone, events_are_of_the_table,
    followers_catch_up, given_up_splits_leave_nothing, splits_keep_the_table,
    splits_leave_others_alone,
};
pub use run::run_events;
