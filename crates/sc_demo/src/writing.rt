//! The orders of one worker.
ghost use Rattle.std.specs.Prelude.{◌≡◌, ◌≤◌, ◌<◌, ◌^◌, length, map};
ghost use Rattle.sc_router.specs.Route.{most_buckets};
ghost use Rattle.sc_collection.specs.Desks.{IsDeskAtRest};
ghost use Rattle.sc_workload.specs.Batches.{IsSmall, contents};
ghost use Rattle.sc_workload.specs.Workload.{worker_orders};
ghost use Rattle.sc_schema.specs.Documents.{content_of};
ghost use Rattle.sc_demo.specs.Writing.{IsShare, MakesOrders, IsPlain, ArePlain, ran_out, writing};

use crate::made::Written;
use sc_collection::{Desk, Trail};
use sc_commands::Batch;
use sc_io::{Clock, Never};
use sc_update::{BatchFault, update};
use sc_workload::orders;
use std::alloc::Global;

/// Makes the orders of a workload that one of so many workers makes, batch after batch, each with an empty trail.
pub fn write<D: Desk, C: Clock>(
    alloc: Global,
    desk: &mut D,
    clock: &mut C,
    trail: &mut Trail,
    seed: u64,
    count: u32,
    worker: u32,
    workers: u32,
) -> Written
    requires share { IsShare (record { workload = record { seed = seed; count = count }; worker = worker; workers = workers }) }
    requires buckets { (D.layout desk.old).buckets ≤ most_buckets }
    requires rest { IsDeskAtRest (D.layout desk.old) (D.out desk.old) (D.seen desk.old) }
    ensures made { MakesOrders C.gives (D.layout desk.old) (writing (D.seen desk.old) clock.old) (writing (D.seen desk.new) clock.new)
        (worker_orders (record { seed = seed; count = count }) worker workers) result }
    ensures few { result.accepted ≤ count }
    ensures layout { D.layout desk.new ≡ D.layout desk.old }
    ensures rest { IsDeskAtRest (D.layout desk.new) (D.out desk.new) (D.seen desk.new) }
{
    let Ok(batches) = orders(alloc, seed, count, worker, workers) else {
        return Written {
            accepted: 0,
            memory: true,
        };
    };
    write_batches(alloc, desk, clock, trail, batches.as_slice())
}

/// Makes batches, one after another.
fn write_batches<D: Desk, C: Clock>(
    alloc: Global,
    desk: &mut D,
    clock: &mut C,
    trail: &mut Trail,
    batches: &[Batch],
) -> Written
    requires batches { ArePlain batches.now }
    requires few { length (contents batches.now) < 2 ^ 32 }
    requires buckets { (D.layout desk.old).buckets ≤ most_buckets }
    requires rest { IsDeskAtRest (D.layout desk.old) (D.out desk.old) (D.seen desk.old) }
    ensures made { MakesOrders C.gives (D.layout desk.old) (writing (D.seen desk.old) clock.old) (writing (D.seen desk.new) clock.new)
        (contents batches.now) result }
    ensures few { result.accepted ≤ length (contents batches.now) }
    ensures layout { D.layout desk.new ≡ D.layout desk.old }
    ensures rest { IsDeskAtRest (D.layout desk.new) (D.out desk.new) (D.seen desk.new) }
{
    let mut written = Written {
        accepted: 0,
        memory: false,
    };
    for batch in batches {
        written = written.then(write_batch(alloc, desk, clock, trail, batch));
    }
    written
}

/// Makes one batch, with an empty trail.
fn write_batch<D: Desk, C: Clock>(
    alloc: Global,
    desk: &mut D,
    clock: &mut C,
    trail: &mut Trail,
    batch: &Batch,
) -> Written
    requires plain { IsPlain batch.now }
    requires buckets { (D.layout desk.old).buckets ≤ most_buckets }
    requires rest { IsDeskAtRest (D.layout desk.old) (D.out desk.old) (D.seen desk.old) }
    ensures made { MakesOrders C.gives (D.layout desk.old) (writing (D.seen desk.old) clock.old) (writing (D.seen desk.new) clock.new)
        (map content_of batch.now.orders) result }
    ensures few { result.accepted ≤ length batch.now.orders }
    ensures layout { D.layout desk.new ≡ D.layout desk.old }
    ensures rest { IsDeskAtRest (D.layout desk.new) (D.out desk.new) (D.seen desk.new) }
{
    trail.clear();
    let end = update(alloc, desk, clock, &mut Never, trail, batch);
    Written {
        // No node is away, so an order that is accepted has two stops; one that is refused has one and ends its batch.
        accepted: (trail.len() / 2) as u32,
        memory: ran_out(&end.fault),
    }
}

/// Memory ran out.
fn ran_out(fault: &Option<BatchFault>) -> bool
    ensures { result ≡ ran_out fault.now }
{
    matches!(fault, Some(BatchFault::Memory))
}
