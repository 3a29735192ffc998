//! One update: its orders, carried out one after another over a desk, and the commit of each bucket after them where it is asked
//! for (Solr Reference Guide, "Indexing with Update Handlers").
//!
//! It depends on the clauses of any `Desk` and on the commit of all its buckets (`sc_collection`'s `commit_all`), on the events of
//! `sc_bucket`, on the bucket of an id (`sc_router`), on any `Clock` and `Hosts` (`sc_io`), and on the batches of `sc_commands` and their
//! orders (`sc_record`). The layers above use the clause `updated` of `update`: each order is answered as the journal of its bucket has it
//! at the order's stop, and each commit as that of its bucket has it at the commit's; and of the cores that orders noted as down the nodes
//! could not be reached. No node is asked, and no core noted.
//!
//! Proved: `update` over any desk: each order of a batch is answered as the journal of its bucket has it at the order's stops
//! (`IsUpdated`), up to the first that is refused, or past conflicts if asked; the lists of what was accepted; then, if that
//! is asked for and nothing stopped the orders, every bucket is committed in order, each at its stop, and what comes of it is
//! reported (`UpdateEnd`). None of a write is in flight once it is settled (`Bucket::settle`).
//!
//! Tested alone: the worked batches; that the holds which deliver are no stops; a commit of two buckets.
//!
//! Neither: that each message of a write has a hold of its own, up to seven, which holds by construction.
#![tactic(auto)]

// What an update came to.
mod end;

// What is shown, one order, and all of an update.
mod batch;
mod order;
mod shown;

pub use batch::update;
pub use end::{BatchEnd, BatchFault};
