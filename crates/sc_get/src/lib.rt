//! Documents by their ids, each as its last write has it, committed or not (Solr Reference Guide, "RealTime Get").
//!
//! It depends on the clauses of any `Desk` (`sc_collection`), on the bucket of an id (`sc_router`), and on ids and cells (`sc_record`). The
//! layers above use those of `get_one` and `get_many`: what is found of an id is its last write in the journal of its bucket at one stop.
//!
//! Proved: `get_one` and `get_many` over any desk: of each id the last write in its bucket's journal at a stop, if it is live
//! (`IsGot`, `AreGot`).
//!
//! Tested alone: ids that are live, deleted and absent, over two buckets.
#![tactic(auto)]

mod many;
mod one;

pub use many::get_many;
pub use one::get_one;
