//! The split beside the workers.
ghost use Rattle.std.specs.Prelude.{◌≡◌, ◌≤◌, codes};
ghost use Rattle.sc_cores.specs.Cores.{outside_of};
ghost use Rattle.sc_router.specs.Route.{most_buckets};
ghost use Rattle.sc_collection.specs.Desks.{IsDeskAtRest};
ghost use Rattle.sc_demo.specs.Splitting.{SplitsFirst};

use sc_collection::{Cut, Desk, Trail};
use sc_io::{Hosts, Pace};
use sc_split::{SplitEnd, split};
use std::alloc::Global;

/// Splits `shard1` in two, with an empty trail.
pub fn split_first<D: Desk, H: Hosts, P: Pace>(
    alloc: Global,
    desk: &mut D,
    hosts: &mut H,
    pace: &mut P,
    trail: &mut Trail,
) -> SplitEnd
    requires buckets { (D.layout desk.old).buckets ≤ most_buckets }
    requires rest { IsDeskAtRest (D.layout desk.old) (D.out desk.old) (D.seen desk.old) }
    ensures split { SplitsFirst (D.layout desk.old)
        (record {
          seen = D.seen desk.old;
          outside = outside_of (H.started hosts.old) (H.start_faults hosts.old) (H.stop_faults hosts.old) (P.stops pace.old) (H.reached hosts.old);
        })
        (record {
          seen = D.seen desk.new;
          outside = outside_of (H.started hosts.new) (H.start_faults hosts.new) (H.stop_faults hosts.new) (P.stops pace.new) (H.reached hosts.new);
        })
        result }
    ensures layout { D.layout desk.new ≡ D.layout desk.old }
    ensures rest { IsDeskAtRest (D.layout desk.new) (D.out desk.new) (D.seen desk.new) }
{
    trail.clear();
    split(
        alloc,
        desk,
        hosts,
        pace,
        trail,
        "shard1",
        &Cut::Parts { n: 2 },
    )
}
