//! The orders of one worker.
ghost use Rattle.std.specs.Prelude.{◌≤◌, ◌<◌, ◌^◌, IfOk};
ghost use Rattle.sc_workload.specs.Workload.{Workload};
ghost use Rattle.sc_workload.specs.Batches.{AreBatchesOf};

use crate::batches::Batches;
use crate::order::order_at;
use sc_commands::Batch;
use sc_record::List;
use std::alloc::{AllocError, Global};

/// The orders of a workload of this seed and this many orders that one of so many workers makes, in order and in batches. An error means
/// out of memory.
pub fn orders(
    alloc: Global,
    seed: u64,
    count: u32,
    worker: u32,
    workers: u32,
) -> Result<List<Batch>, AllocError>
    requires least { 1 ≤ count }
    requires most { count < 2 ^ 28 }
    requires worker { worker < workers }
    ensures { IfOk result (AreBatchesOf (record { seed = seed; count = count }) worker workers) }
{
    let documents = (count + 1) / 2;
    let first = (seed % u64::from(documents)) as u32;
    let mut batches = Batches::new(alloc);
    for place in 0..count {
        let number = (first + 7 * place) % documents;
        if number % workers == worker {
            batches.push(alloc, order_at(alloc, number, place)?)?;
        }
    }
    batches.into_list()
}
