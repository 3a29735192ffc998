//! What is answered: the bodies of all answers to updates, gets and searches, and the status and the message of each cause of
//! a refusal (RFC 8259; Solr Reference Guide, "Response Writers").
//!
//! It may depend on `sc_record` and `sc_cluster`, whose limits its messages tell, on `sc_json`, which shows documents and prints,
//! and on `serde`, by which an answer with documents is sent to the printer of `serde_json`. The layers above use the clauses
//! that give each body's whole text, and those of `Cause::status` and `Cause::message`.
//!
//! Proved: the bodies of updates, errors and gets, and their messages, are the texts of `specs/Bodies` and `Refusals`.
//!
//! Tested alone: the worked answers.
#![tactic(auto)]

// Why a request is refused.
mod cause;

// The members of answers.
mod parts;

// Answers with documents, as they are written.
mod shown;

// The bodies of answers.
mod documents;
mod fixed;
mod update;

pub use cause::Cause;
pub use documents::{get_body, ids_body, select_body};
pub use fixed::{memory_body, ok_body};
pub use update::{error_body, update_body};
