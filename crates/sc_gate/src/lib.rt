//! What is asked before a request is answered that made entries: whether its entries are kept, as on a disk.
//!
//! It depends on `sc_collection`'s desk and trail; its clauses speak of the stops of `sc_seen`, of the entries of `sc_journal` and
//! `sc_record`, and of counts of faults as `sc_io` has them. The layer above passes a gate between the answer to a request and its reply,
//! over any `Gate`: it uses the clauses of `pass` and of `keep_all`, and knows of no file.
//!
//! Proved: `NoGate`, which keeps all and never fails, is a gate of every desk, and says that it stands open, so that nobody has to pass it.
//!
//! Neither: that a request passes a gate, which the layer above says; there is no gate yet that keeps entries on a disk.
#![tactic(auto)]

mod gate;

pub use gate::{Gate, GateFault, NoGate};
