//! What is seen of a collection while others change it: prefixes of its buckets' journals and of its board's, which of their entries
//! are one's own, the stops at which one looked at them, and what a request is answered by the journals at its stops. The definitions
//! stand in `specs/`; the layers above cite them, and use the facts of `proofs/`.
//!
//! It depends on `sc_journal` and `sc_cluster`. What stands on one journal alone is there.
//!
//! Proved: the laws `last_stops_settle` (after an accepted order's last stop its write is settled), `boards_stay_legal` (the
//! board's legal journal grows by what may come after it, and its prefixes are legal), `boards_keep_a_map` (the slices after it are
//! those of a cluster, some are being made exactly while a split runs, ids stay below 2^32, and a split that failed leaves the slices as
//! they were before it), `boards_owe_entries` (what each entry makes owed, and takes off it).
#![tactic(auto)]

mod batches;
mod board;
mod board_laws;
mod stop;

pub use batches::last_stops_settle;
pub use board::BoardEntry;
pub use board_laws::{boards_keep_a_map, boards_owe_entries, boards_stay_legal};
pub use stop::Stop;
