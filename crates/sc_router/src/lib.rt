//! Which hash a document's id is routed by, as Solr's compositeId router has it: the id's parts are
//! separated by `!`, and each gives some bits of its own hash. It depends on `sc_hash`.
//! The layers above use the contracts of `route_hash`, `plain_hash`, `bucket_of` and `key_range`, which
//! name the definitions of these names at the list of the id's bytes.
//!
//! Proved: `route_hash`, `plain_hash`, `bucket_of` and `key_range` are the definitions in `specs/` of Solr's compositeId
//! router.
//!
//! Tested alone: Solr's values for a list of ids.
//!
//! Neither: speed; that each part is hashed once, as it is read, holds by construction.
#![tactic(auto)]

mod part;
mod route;
mod share;

// The limit of buckets.
mod laws;

pub use laws::limits_are_as_defined;
pub use route::{MOST_BUCKETS, bucket_of, key_range, plain_hash, route_hash};
