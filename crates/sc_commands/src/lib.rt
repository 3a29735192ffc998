//! The body of an update, read in every form that it may have (Solr Reference Guide, "JSON Formatted Index Updates"): an array
//! of documents, or an object that adds, deletes and commits.
//!
//! It may depend on `sc_json`, which reads JSON, and on `sc_schema`, which checks documents. The layers above use the clauses
//! of `read_update`: the batch of orders that a body asks for, or the first cause why it is refused.
//!
//! Proved: `read_update` gives the orders of a body in each of its forms, or the first cause why it is refused
//! (`specs/Commands`).
//!
//! Tested alone: the worked bodies.
#![tactic(auto)]

// What was asked for, and why it is refused.
mod batch;
mod fault;

// The forms of a body, and the orders of its commands.
mod forms;
mod keys;
mod orders;

// The body.
mod update;

pub use batch::{Batch, Flags};
pub use fault::CommandFault;
pub use update::read_update;
