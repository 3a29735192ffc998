//! The test of a journal's entries one after another: whether each may follow those before it. It depends on `sc_journal`, which defines
//! what may follow, and on `sc_cluster`, for the map.
//!
//! The layer above makes a `Checker` for a bucket's first map, hands it each entry that it reads of the bucket's journal, oldest first, and
//! goes by the clauses of `may_follow`; or hands all of them to `check_all`. Whoever read the entries has computed the hash and the terms of
//! each write: they are not computed again here.
//!
//! Proved: `may_follow` is true exactly where the entry may follow those that the checker has passed, which are a legal journal, and it then
//! passes the entry; else, and where memory is refused, the checker stays as it was. `check_all` says exactly of a legal journal that it is
//! one, and of another gives the place of the first entry that may not follow those before it.
//!
//! Tested alone: for each kind of entry one that may follow and one that may not.
//!
//! Neither: speed; that the work of an entry does not grow with the journal, but for the height of two trees, holds by construction.
#![tactic(auto)]

// What is kept of a journal: which cores are down, and all that its next entry depends on.
mod down;
mod kept;

// Whether an entry may come next, by what is kept, and what is kept once it came.
mod asks;
mod notes;

// The journal that was passed, with what is kept of it.
mod checker;

// All entries of a journal.
mod whole;

pub use checker::Checker;
pub use whole::check_all;
