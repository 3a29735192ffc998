//! The commands on the collection (Solr Reference Guide, "Collections API": SPLITSHARD, CLUSTERSTATUS and DELETESHARD): what a
//! request's parameters ask for, and the bodies of the answers; and a shard is deleted.
//!
//! It depends on the parameters of `sc_model`, on the map of `sc_cluster`, on the ranges of `sc_hash`, on the cut of `sc_board`, on the
//! texts and lists of `sc_record`, on the JSON of `sc_json` and `serde_json`; and, to delete a shard, on the board and a desk of
//! `sc_collection`, on the event of `sc_handover`, on the cores of `sc_cores` and on the hosts of `sc_io`. The layers above use the clauses
//! of `read_admin`, which say what the parameters ask for or which of them is at fault, those of `status_body` and `split_body`, which give
//! each body's whole text, and that of `delete`.
//!
//! Proved: `read_admin` is the definition `asked_admin` of the list of parameters, and a cut that it reads has as many parts as one may;
//! `status_body` and `split_body` are the texts of `specs/Status` and `specs/Splits`; `delete` went as `IsDelete` of `specs/Deletes` says:
//! the board refused it, by the first cause, and all is as it was, or the slice of that name was dropped from each bucket and from the
//! board, at one stop of it, and then each of its cores was stopped, or stopping some failed and the first of these is named;
//! reaching no node failed.
//!
//! Tested alone: nothing.
//!
//! Neither: want of memory.
#![tactic(auto)]

// What is asked.
mod admin;
mod ranges;
mod read;

// A shard is deleted.
mod deleting;
mod dropping;

// What is answered.
mod split;
mod state;
mod status;
mod text;

pub use admin::{Admin, AdminFault};
pub use deleting::{DeleteEnd, delete};
pub use read::read_admin;
pub use split::split_body;
pub use state::state_name;
pub use status::status_body;
