//! The cores of a bucket, as the list of them, and what serves the searches of its slices: each call changes one core of the list, or
//! gives what is there. It depends on `sc_replica` and `sc_snapshot`, knows neither a journal nor a bucket, and does no input and no
//! output.
//!
//! A layer above speaks of `Replicas` as the list of its cores, and of a `Standing` by its slice, its range and its snapshot
//! (`specs/Searchers`).
//!
//! Proved: `Replicas::new` gives each slice of a map its cores, without cells; `position` finds the core of a name, and `seat_of`
//! the seat of a core by its number; `next_of` gives the last write of an id in a core, and the version that its next write gets
//! there, one after that core's clock or the timestamp's; `lead`, `receive`, `feed`, `replay`, `start_replay` and `mark_down` are
//! the step of the record `Core` at one place, and leave each other core as it was; `insert` keeps the order of names, and
//! `keep_of` those of a map's slices; `exchange` has two cores change seats with all that they have, and `renew` puts a new core in
//! the place of one, whose number it takes; a call that finds no memory changes nothing. `searcher_for` gives the searcher of a
//! slice; `have_own_rows` says so only where all rows of each searcher are of its range; `move_all` has each searcher show the same
//! rows at another place, or changes none.
//!
//! Tested alone: none; the tests of the crates above run each call.
//!
//! Neither: speed; that a call looks at one core, and a search by a name or a number at each at most once, holds by construction.
#![tactic(auto)]

// The cores of a bucket.
mod replicas;

// The searchers of its slices.
mod standing;

pub use replicas::{Replicas, is_of_one};
pub use standing::{Searcher, Standing, are_within, have_own_rows, move_all, searcher_for};
