//! Which slices the collection has, which hashes each of them has, and how a split changes them. It depends on
//! `sc_hash` and `sc_record`, and does no input and no output.
//! The layers above cut a range by `cut`, ask by `tiles` whether given ranges are the parts of one, find a slice by
//! `ClusterMap::leads`, `by_name` and `by_id`, ask by `allows` whether a plan's split may begin, and change a map by
//! `begin`, `recovering`, `switched`, `failed` and `dropped`, each of which is one step of `after`, the definition
//! that the entries of a journal go by too. Whatever was done to it, a map is what `IsMap` says: its active slices
//! share out all hashes, and at most one of them is being split.
//!
//! Proved: `cut` gives the parts of a range by the rule in `specs/Cut`, they tile it, and it is too small exactly if it has
//! fewer hashes than parts; `tiles` is true exactly if a list of ranges tiles a range. `ClusterMap`: after each call the
//! active slices share out all hashes and at most one is being split (`IsMap`); `leads` is the one that has a hash, `by_id`
//! and `by_name` find a slice exactly if there is one; `allows` is true exactly if a plan's split may begin; each change is
//! one step of `after`, and a begin that finds no memory changes nothing; a copy equals its original. `changes_keep_a_map`:
//! so for every list of allowed changes; no id of a slice that was ever active is given again, ids rise by at most the number
//! of subs begun, a split that fails leaves the slices as they were, and its end is the same without the state recovery.
//!
//! Tested alone: the worked ranges, 32 splits down to one hash, 256 slices, cuts of small sizes against a plain formula.
//!
//! Neither: speed.
#![tactic(auto)]

// A range and its parts, and whether ranges are the parts of one.
mod parts;
mod tile;

// A slice, and what it and its cores are called.
mod name;
mod slice;

// The slices of a new collection, those that a split is to make, and the map of all.
mod first;
mod map;
mod plan;
mod query;
mod state;

// Which splits may begin.
mod allow;

// What follows from the definitions.
mod laws;

pub use allow::MOST_SLICES;
pub use laws::{changes_keep_a_map, limits_are_as_defined};
pub use map::ClusterMap;
pub use name::core_name;
pub use parts::{CutFault, cut};
pub use plan::SplitPlan;
pub use slice::{Slice, State};
pub use tile::tiles;
