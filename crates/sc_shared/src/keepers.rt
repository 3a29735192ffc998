//! The keepers of all buckets, as the board has them while no split runs.

use crate::numbered::Numbered;
use sc_collection::Parts;
use sc_lock::Keeper;

/// The keepers of all buckets of a collection, by the bucket's number.
#[derive(Drop)]
pub struct Keepers {
    pub keepers: Vec<Keeper<Numbered>>,
}

impl Parts for Keepers {}
