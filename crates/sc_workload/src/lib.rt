//! A workload that several workers make beside each other: adds and deletions of many documents, in an order that a seed determines.
//!
//! It depends on `sc_record` for orders and on `sc_commands` for batches. The layer above has each worker make the batches that `orders`
//! gives for it.
//!
//! Proved: `orders` gives those orders of the workload that are the worker's, in order, in batches of 1 to 100 without flags
//! (`AreBatchesOf`); and all orders on one document lie with one worker (`LieWithOneWorker`), so the workers need no order among them.
//!
//! Tested alone: the ids and the deletions of ten orders of two workers; the lengths of three batches.
//!
//! Neither: speed; that each batch but the last has 100 orders.
#![tactic(auto)]

// One order.
mod order;

// The orders of a worker, in batches.
mod batches;
mod share;

// Which worker has the orders on a document.
mod laws;

pub use laws::orders_lie_with_one_worker;
pub use share::orders;
