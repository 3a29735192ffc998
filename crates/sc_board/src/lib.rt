//! The board: what an administrator sees of a collection. It keeps the journal of the collection's splits, the map of slices that
//! the journal makes of the first one, the replica that leads each of them, and the keepers of all buckets exactly while no split
//! runs, so that whoever is handed them runs the one split that there is.
//!
//! It depends on `sc_cluster`, for the map, and on `sc_seen`, which defines the board's journal. The layer above keeps it behind a
//! lock, asks for `IsSoundBoard`, which each call keeps, and reads by the clauses of a call which entry it added.
//!
//! Proved: each call keeps `IsSoundBoard`: the journal is legal, the map is what it makes of the first one, the leaders are those that
//! it notes, the entries that are owed are counted and have their room in the limit and in memory, and the keepers are there exactly
//! while no split runs. `begin_split` refuses by the first cause of `Prevents` that holds, or for want of memory, and begins only where
//! none holds; its plan is one of the slice of that name by the cut that was asked for, the entry of the plan is noted, and the keepers
//! are handed out; a refusal changes nothing but room. `recovering`, `done`, `failed` and `dropped` note just their entry, of the split
//! that runs, and take no memory; `check_drop` refuses by the first cause of `PreventsDrop`, and else names a slice that may be dropped;
//! `check_lead` refuses by the first cause of `PreventsLead`, or for want of memory, changes nothing but room, and else names a slice
//! each of whose replicas may be noted as its leader by `led`, which takes no memory; `leaders` has that of each slice; `keepers` lends
//! the keepers of all buckets while no split runs, and nothing else of the board; `restored` has just the journal that is handed in, of
//! which it makes all else, and `with_keepers` puts keepers into such a board and changes nothing else.
//!
//! Tested alone: nothing here; the layers above run splits.
//!
//! Neither: speed; that no other call takes memory shows in their signatures, but for the empty list that `Leaders` puts in the place of
//! its own while that is changed.
#![tactic(auto)]

// What a board keeps, and how a range is to be cut.
mod cut;
mod journal;
mod leaders;

// Why a call is refused.
mod fault;

// The board, and its calls.
mod beginning;
mod board;
mod dropping;
mod going_on;
mod leading;
mod restored;
mod running;

pub use board::Board;
pub use cut::Cut;
pub use fault::{BoardFault, DropFault, LeadFault};
pub use journal::BoardJournal;
pub use leaders::Leaders;
