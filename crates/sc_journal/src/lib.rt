//! What a bucket's journal is, which journals can be, and what an order is answered by one. The definitions stand in
//! `specs/`; the layers above cite them, and use the facts of `proofs/`.
//!
//! Proved: laws: `journals_stay_legal` (a legal journal grows by what may follow it, its prefixes are legal, and per id
//! versions ascend), `journals_owe_entries` (what each entry makes owed, and takes off it), `journals_come_to_rest` (a legal
//! journal has a legal continuation, no longer than what it owes, after which each write is settled, no split is open and no
//! slice is inactive; exactly then it owes nothing but an entry of each follower that is not down), `journals_keep_a_map` (the
//! slices after a legal journal are those of a cluster, and those being made are the subs of the slice whose split is open),
//! `journals_seat_cores` (in a legal journal a core that is down is a follower of a slice that is there and that no split is
//! making, and the cores of a slice sit in its seats, each in one, and each in the seat of its number until the slice is there
//! and no split is making it; a core that was down and is not came up by an entry, in the seat where it was),
//! `cores_change_no_answer` (without its entries of cores a journal has the same last writes, versions, slices and open split, and
//! a search finds the same).
#![tactic(auto)]

mod laws;

pub use laws::{
    cores_change_no_answer, journals_come_to_rest, journals_keep_a_map, journals_owe_entries,
    journals_seat_cores, journals_stay_legal,
};
