ghost use Rattle.std.specs.Prelude.{◌≡◌, ◌<◌, ◌≤ℤ◌};

use sc_values::{CloneIn, Text};
use std::alloc::{AllocError, Global};

/// Names a slice of the collection. Ids are counted up, and that of a slice that was ever active is given to no other.
#[derive(Clone, Copy, Debug, PartialEq, Eq)]
pub struct SliceId(pub u32);

/// Names a core: a replica of a slice, counted from 1. Replica 1 leads.
#[derive(Clone, Copy, Debug, PartialEq, Eq)]
pub struct CoreId {
    pub slice: SliceId,
    pub replica: u8,
    pub ghost counted: { 0 < replica },
}

impl CoreId {
    /// The core that leads the slice.
    pub fn leader(slice: SliceId) -> CoreId
        ensures slice { result.slice ≡ slice }
        ensures first { result.replica ≡ 1 }
    {
        CoreId { slice, replica: 1 }
    }
}

/// A slice that a split makes out of a part of its parent: the hashes from `min` to `max`, both included, on as many
/// replicas as the parent has. `node` is that of replica 1; nodes are counted from 1.
#[derive(Debug, Drop)]
pub struct SubSlice {
    pub id: SliceId,
    pub name: Text,
    pub min: i32,
    pub max: i32,
    pub replicas: u8,
    pub node: u32,
    pub ghost ordered: { min ≤ℤ max },
    pub ghost replicated: { 0 < replicas },
    pub ghost placed: { 0 < node },
}

impl CloneIn for SubSlice {
    fn clone_in(&self, alloc: Global) -> Result<SubSlice, AllocError> {
        Ok(SubSlice {
            id: self.id,
            name: self.name.clone_in(alloc)?,
            min: self.min,
            max: self.max,
            replicas: self.replicas,
            node: self.node,
        })
    }
}
