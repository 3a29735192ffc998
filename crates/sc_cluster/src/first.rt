//! The slices of a new collection.

ghost use Rattle.std.specs.Prelude.{◌≤◌, ◌<◌, IfOk};
ghost use Rattle.sc_cluster.specs.Limits.{most_slices};
ghost use Rattle.sc_cluster.specs.Map.{IsFirst, AreFirst};

use crate::name::first_name;
use crate::parts::part;
use crate::slice::{Slice, State};
use sc_hash::Range;
use sc_record::SliceId;
use std::alloc::{AllocError, Global};

/// All hashes.
const ALL: Range = Range {
    min: i32::MIN,
    max: i32::MAX,
};

// Slice i, from 0, of a new collection.
fn first_slice(
    alloc: Global,
    shards: u32,
    replicas: u8,
    nodes: u32,
    i: u32,
) -> Result<Slice, AllocError>
    requires shards { shards ≤ most_slices }
    requires slice { i < shards }
    requires replicas { 1 ≤ replicas }
    requires nodes { 1 ≤ nodes }
    ensures { IfOk result (IsFirst shards replicas nodes i) }
{
    Ok(Slice {
        id: SliceId(i),
        name: first_name(alloc, i + 1)?,
        range: part(&ALL, shards, i),
        state: State::Active,
        replicas,
        node: i * u32::from(replicas) % nodes + 1,
    })
}

/// The slices of a new collection.
pub(crate) fn first_slices(
    alloc: Global,
    shards: u32,
    replicas: u8,
    nodes: u32,
) -> Result<Vec<Slice>, AllocError>
    requires least { 1 ≤ shards }
    requires most { shards ≤ most_slices }
    requires replicas { 1 ≤ replicas }
    requires nodes { 1 ≤ nodes }
    ensures { IfOk result (λ slices. AreFirst shards replicas nodes slices.items) }
{
    let mut slices = Vec::with_capacity(alloc, shards as usize)?;
    for i in 0..shards {
        slices.push(first_slice(alloc, shards, replicas, nodes, i)?)?;
    }
    Ok(slices)
}
