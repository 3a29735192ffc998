//! What cores are called, and on which node they stand.

ghost use Rattle.std.specs.Prelude.{◌≡◌, ◌≤◌, ◌++◌, IfOk, OnOk};
ghost use Rattle.sc_cluster.specs.Slices.{node_of};
ghost use Rattle.sc_cores.specs.Cores.{core_at, cores_of_slice, cores_of_map};

use sc_cluster::{ClusterMap, Slice, core_name};
use sc_io::Host;
use sc_record::List;
use std::alloc::{AllocError, Global};

/// Replica k, from 1, of a slice of this name, whose replica 1 is on this node, among so many nodes; nodes are counted from 1. An error
/// means out of memory.
pub fn core_of(alloc: Global, nodes: u32, name: &str, node: u32, k: u8) -> Result<Host, AllocError>
    requires nodes { 1 ≤ nodes }
    requires node { 1 ≤ node }
    requires replica { 1 ≤ k }
    ensures { IfOk result (λ host. host ≡ core_at nodes name.now node k) }
{
    Ok(Host {
        node: node_of(node, k, nodes),
        core: core_name(alloc, name, k)?,
    })
}

/// The cores of a slice, replica by replica. An error means out of memory.
pub fn cores_of(alloc: Global, nodes: u32, slice: &Slice) -> Result<List<Host>, AllocError>
    requires nodes { 1 ≤ nodes }
    ensures { IfOk result (λ cores. cores ≡ cores_of_slice nodes slice.now) }
{
    let mut cores = Vec::with_capacity(alloc, usize::from(slice.replicas))?;
    push_cores(alloc, nodes, slice, &mut cores)?;
    Ok(List::from_vec(cores))
}

/// The cores of each slice of a map, slice by slice. An error means out of memory.
pub fn cores_of_map(alloc: Global, nodes: u32, map: &ClusterMap) -> Result<List<Host>, AllocError>
    requires nodes { 1 ≤ nodes }
    ensures { IfOk result (λ cores. cores ≡ cores_of_map nodes map.now) }
{
    let mut cores = Vec::new(alloc);
    let mut at = 0;
    while let Some(slice) = map.get(at) {
        push_cores(alloc, nodes, slice, &mut cores)?;
        at += 1;
    }
    Ok(List::from_vec(cores))
}

// Puts the cores of a slice after these.
fn push_cores(
    alloc: Global,
    nodes: u32,
    slice: &Slice,
    cores: &mut Vec<Host>,
) -> Result<(), AllocError>
    requires nodes { 1 ≤ nodes }
    ensures { OnOk result (cores.new.items ≡ cores.old.items ++ cores_of_slice nodes slice.now) }
{
    for before in 0..slice.replicas {
        cores.push(core_of(alloc, nodes, slice.name.as_str(), slice.node, before + 1)?)?;
    }
    Ok(())
}

// The node of replica k, from 1, where replica 1 is on this one, among so many.
fn node_of(node: u32, k: u8, nodes: u32) -> u32
    requires nodes { 1 ≤ nodes }
    requires node { 1 ≤ node }
    requires replica { 1 ≤ k }
    ensures { result ≡ node_of node k nodes }
{
    let steps = u64::from(node - 1) + u64::from(k - 1);
    (steps % u64::from(nodes)) as u32 + 1
}
