//! The cores of slices: what they are called (Solr Reference Guide, "Core Discovery"), on which node each stands, and how those of a slice
//! or of a whole map are started and stopped.
//!
//! It depends on the slices of `sc_cluster`, on the lists of `sc_record` and on the `Hosts` of `sc_io`. The layers above, which make and
//! take away slices, use the clauses of its calls, and say by `specs/Cores` which cores are started.
//!
//! Proved: `core_of`, `cores_of` and `cores_of_map` give the defined cores; `start_cores` starts each, in order, up to the first that
//! fails, of which there is one exactly where the count of failed starts rose; `stop_cores` asks for each to be stopped, also where one
//! fails: no more are left than faults were counted, and the first of them is told.
//!
//! Neither: want of memory.
#![tactic(auto)]

mod naming;
mod starting;

pub use naming::{core_of, cores_of, cores_of_map};
pub use starting::{start_cores, stop_cores};
