//! The cores of a bucket that is made of its journal.

ghost use Rattle.std.specs.Prelude.{◌≡◌, ◌≤◌, List, ◌++◌, map, All, IfOk, OnOk};
ghost use Rattle.std.specs.Arc.{arc_value};
ghost use Rattle.sc_record.specs.Writes.{AscendById};
ghost use Rattle.sc_replica.specs.Core.{Core};
ghost use Rattle.sc_replicas.specs.Cores.{core_key, core_keys, slice_keys};
ghost use Rattle.sc_restored.specs.Restored.{IsFilled, IsRestoredCore, AreRestored, AddsCores};

use crate::cells::last_cells;
use crate::filling::fill;
use crate::marks::{is_down, number_in};
use sc_cluster::{ClusterMap, Slice};
use sc_record::{Cell, CoreId, Entry};
use sc_replica::Replica;
use sc_replicas::Replicas;
use sc_ulog::Mode;
use std::alloc::{AllocError, Global};

/// The cores of these slices: each active, with the mark and the number that these entries of cores give it, and, where it is not down,
/// with the last of these writes of each id of its slice's range. An error means out of memory.
pub(crate) fn replicas_of(
    alloc: Global,
    slices: &ClusterMap,
    marks: &[Entry],
    writes: &[Cell],
) -> Result<Replicas, AllocError>
    ensures { IfOk result (AreRestored slices.now marks.now (map arc_value writes.now)) }
{
    let mut replicas = Vec::new(alloc);
    for at in 0..slices.len() {
        push_replicas(alloc, &mut replicas, slices.get(at).unwrap(), marks, writes)?;
    }
    replicas.shrink_to_fit();
    Ok(Replicas::from_vec(replicas))
}

// Puts the cores of the slice at the end. An error means out of memory.
fn push_replicas(
    alloc: Global,
    replicas: &mut Vec<Replica>,
    slice: &Slice,
    marks: &[Entry],
    writes: &[Cell],
) -> Result<(), AllocError>
    ensures { OnOk result (AddsCores slice.now marks.now (map arc_value writes.now) replicas.old.items replicas.new.items) }
{
    let cells = last_cells(alloc, writes, &slice.range)?;
    for below in 0..slice.replicas {
        let seat = CoreId {
            slice: slice.id,
            replica: below + 1,
        };
        replicas.push(replica_of(alloc, seat, marks, cells.as_slice())?)?;
    }
    Ok(())
}

// The core in the seat, with these cells where it is not down. An error means out of memory.
fn replica_of(
    alloc: Global,
    seat: CoreId,
    marks: &[Entry],
    cells: &[Cell],
) -> Result<Replica, AllocError>
    requires { AscendById (map arc_value cells.now) }
    ensures { IfOk result (IsFilled seat marks.now (map arc_value cells.now)) }
{
    let mut replica = Replica::new(alloc, seat, Mode::Active);
    replica.set_number(number_in(marks, seat));
    if is_down(marks, seat) {
        replica.mark_down();
        return Ok(replica);
    }
    fill(&mut replica, cells)?;
    let _ = replica.clock(); // by it the proof knows that it is a core
    Ok(replica)
}
