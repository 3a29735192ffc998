ghost use Rattle.std.specs.Prelude.{◌≡◌, ◌++◌, List, OnOk, OnErr};
ghost use Rattle.sc_record.specs.Writes.{Write};
ghost use Rattle.sc_journal.specs.Journal.{writes};
ghost use Rattle.sc_bucket.specs.Sound.{IsSound};
ghost use Rattle.sc_world.specs.Runs.{Runs, EventsRunOut};

use crate::condition::can;
use crate::event::Event;
use crate::step::step;
use sc_bucket::Bucket;
use sc_record::List;
use std::alloc::{AllocError, Global};

/// Has each event come to the bucket whose condition holds, in order, and passes over the others. It stops where memory runs out; what
/// came before stands.
pub fn run_events(
    alloc: Global,
    bucket: &mut Bucket,
    events: &List<Event>,
) -> Result<(), AllocError>
    requires { IsSound bucket.old }
    ensures sound { IsSound bucket.new }
    ensures ran { OnOk result ((added : List Write) × Runs bucket.old events.now added bucket.new
        × (writes bucket.new.journal.entries ≡ writes bucket.old.journal.entries ++ added)) }
    ensures ran_out { OnErr result ((added : List Write) × EventsRunOut bucket.old events.now added bucket.new
        × (writes bucket.new.journal.entries ≡ writes bucket.old.journal.entries ++ added)) }
{
    for event in events.as_slice() {
        if can(bucket, event) {
            step(alloc, bucket, event)?;
        }
    }
    Ok(())
}
