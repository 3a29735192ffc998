//! What of a bucket only its keeper changes. A bucket has one keeper at a time, who runs its split, has a core rejoin or gives a slice
//! another leader; whoever else holds it passes through: accepts, delivers, settles, commits or detaches. The bucket's part is what no
//! pass changes: its map, its phase, its cores with their modes, how far its feeds are, and those entries of its journal that only a
//! keeper makes. So a keeper who lets the bucket go between two events finds its part as it left it. The definitions stand in `specs/`;
//! the layers above cite them, and use the facts of `proofs/`. It depends on `sc_handover`.
//!
//! Proved: laws: `passes_keep_the_parts` (no pass, no refusal and no delivery changes a part), `journals_tell_the_keepers_entries` (a
//! pass adds no entry of the keeper, and a keeper's event no other; where a journal grows and its keeper's entries stay, none of those
//! that came is the keeper's), `parts_tell_when_events_may_come` (each of the nine events of a split may come to a bucket exactly where
//! it may by its part; a core may rejoin or take the lead exactly where it may by the part and is down, or is not down: which no part
//! tells, since a pass marks cores as down), `events_change_the_parts` (what each of these eleven events makes of a part, and that all
//! else of it stays).
#![tactic(auto)]

// What a part is.
mod part;

// What events make of it.
mod laws;

pub use laws::{
    events_change_the_parts, journals_tell_the_keepers_entries, parts_tell_when_events_may_come,
    passes_keep_the_parts,
};
pub use part::{CorePart, FeedPart, Part};
