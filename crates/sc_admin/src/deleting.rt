//! A shard that was split is deleted.

ghost use Rattle.std.specs.Prelude.{◌≡◌, ◌<◌, ◌≤◌, ℕ, length, IfOk, IfErr};
ghost use Rattle.sc_cluster.specs.declared.slice.Slice.{Slice};
ghost use Rattle.sc_seen.specs.Board.{board_map};
ghost use Rattle.sc_seen.specs.Moments.{view_of};
ghost use Rattle.sc_board.specs.Splits.{IsOfNamed};
ghost use Rattle.sc_board.specs.Drops.{IsDropRefusal};
ghost use Rattle.sc_collection.specs.Desks.{IsDeskAtRest};
ghost use Rattle.sc_collection.specs.Kept.{trail_room};
ghost use Rattle.sc_cores.specs.Cores.{outside_of, cores_of_slice};
ghost use Rattle.sc_admin.specs.Deletes.{IsDelete, StopsCores, delete_moment, drop_refusal, kept, dropped};
ghost use Rattle.sc_admin.specs.Dropping.{Deletes};

use crate::dropping::drop_slice;
use sc_board::DropFault;
use sc_cluster::State;
use sc_collection::{Desk, Stop, Trail};
use sc_cores::stop_cores;
use sc_io::{Host, Hosts};
use sc_record::{List, Text};
use std::alloc::Global;

/// What a deletion came to. After `HostFault` the shard is gone, each of its other cores was asked to stop, and the core of this name is
/// the first of which that failed. After each other refusal all is as it was.
#[derive(Drop)]
pub enum DeleteEnd {
    /// The shard is gone, and its cores are stopped.
    Done,
    /// No shard has the name.
    UnknownShard,
    /// A split of this shard runs.
    Running { shard: Text },
    /// The shard is in this state.
    NotInactive { state: State },
    /// Stopping the core of this name failed.
    HostFault { core: Text },
    /// Memory ran out.
    Memory,
}

/// Deletes the shard of this name, which was split (Solr Reference Guide, "Shard Management", DELETESHARD): it leaves each bucket, and the
/// board, which is held throughout and whose stop is kept, and then each of its cores is stopped.
pub fn delete<D: Desk, H: Hosts>(
    alloc: Global,
    desk: &mut D,
    hosts: &mut H,
    trail: &mut Trail,
    shard: &str,
) -> DeleteEnd
    requires rest { IsDeskAtRest (D.layout desk.old) (D.out desk.old) (D.seen desk.old) }
    requires room { length trail.old.stops < trail_room }
    ensures delete { (stops : ℕ) → IsDelete (D.layout desk.old) shard.now
        (delete_moment (view_of (D.seen desk.old) trail.old.stops)
        (outside_of (H.started hosts.old) (H.start_faults hosts.old) (H.stop_faults hosts.old) stops (H.reached hosts.old)))
        (delete_moment (view_of (D.seen desk.new) trail.new.stops)
        (outside_of (H.started hosts.new) (H.start_faults hosts.new) (H.stop_faults hosts.new) stops (H.reached hosts.new)))
        result }
    ensures layout { D.layout desk.new ≡ D.layout desk.old }
    ensures rest { IsDeskAtRest (D.layout desk.new) (D.out desk.new) (D.seen desk.new) }
    ensures requests { trail.new.requests ≡ trail.old.requests }
{
    match drop_on_board(alloc, desk, trail, shard) {
        Ok(cores) => stopped(hosts, cores),
        Err(fault) => refusal(fault),
    }
}

// Drops the slice of this name while the board is held, and keeps that stop. Reports the slice's cores.
fn drop_on_board<D: Desk>(
    alloc: Global,
    desk: &mut D,
    trail: &mut Trail,
    shard: &str,
) -> Result<List<Host>, DropFault>
    requires rest { IsDeskAtRest (D.layout desk.old) (D.out desk.old) (D.seen desk.old) }
    requires room { length trail.old.stops < trail_room }
    ensures layout { D.layout desk.new ≡ D.layout desk.old }
    ensures rest { IsDeskAtRest (D.layout desk.new) (D.out desk.new) (D.seen desk.new) }
    ensures requests { trail.new.requests ≡ trail.old.requests }
    ensures dropped { IfOk result (λ cores. (slice : Slice)
        × (deletes : Deletes (D.layout desk.old) (dropped slice) (view_of (D.seen desk.old) trail.old.stops) (view_of (D.seen desk.new) trail.new.stops))
        × IsOfNamed (board_map (D.layout desk.old).first deletes.held) shard.now (λ one. one ≡ slice)
        × (cores ≡ cores_of_slice (D.layout desk.old).nodes slice)) }
    ensures refused { IfErr result (λ fault.
        (deletes : Deletes (D.layout desk.old) kept (view_of (D.seen desk.old) trail.old.stops) (view_of (D.seen desk.new) trail.new.stops))
        × IsDropRefusal (board_map (D.layout desk.old).first deletes.held) shard.now fault) }
{
    let mut board = desk.hold_board();
    let place = board.entries();
    let answer = drop_slice(alloc, desk, &mut board, shard);
    desk.give_board(board);
    trail.keep(Stop {
        lock: desk.buckets(),
        place,
        made: answer.is_ok(),
    });
    answer
}

// What a deletion came to whose slice is gone, once its cores were stopped.
fn stopped<H: Hosts>(hosts: &mut H, cores: List<Host>) -> DeleteEnd
    ensures stopped { (nodes : ℕ) (slice : Slice) (stops : ℕ) → cores ≡ cores_of_slice nodes slice
        → StopsCores nodes (dropped slice)
        (outside_of (H.started hosts.old) (H.start_faults hosts.old) (H.stop_faults hosts.old) stops (H.reached hosts.old))
        (outside_of (H.started hosts.new) (H.start_faults hosts.new) (H.stop_faults hosts.new) stops (H.reached hosts.new)) result }
    ensures no_fall { H.stop_faults hosts.old ≤ H.stop_faults hosts.new }
    ensures other_count { H.start_faults hosts.new ≡ H.start_faults hosts.old }
    ensures reached { H.reached hosts.new ≡ H.reached hosts.old }
{
    match stop_cores(hosts, cores.as_slice()) {
        Some(at) => DeleteEnd::HostFault {
            core: cores.into_vec().swap_remove(at).core,
        },
        None => DeleteEnd::Done,
    }
}

// What a deletion that the board refused came to.
fn refusal(fault: DropFault) -> DeleteEnd
    ensures { result ≡ drop_refusal fault }
{
    match fault {
        DropFault::UnknownShard => DeleteEnd::UnknownShard,
        DropFault::Running { shard } => DeleteEnd::Running { shard },
        DropFault::NotInactive { state } => DeleteEnd::NotInactive { state },
        DropFault::Memory => DeleteEnd::Memory,
    }
}
