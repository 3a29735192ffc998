ghost use Rattle.std.specs.Prelude.{IfOk};
ghost use Rattle.sc_bucket.specs.Sound.{IsSound};

use crate::line::joined;
use crate::words::{log_limit, number, word};
use sc_bucket::{Accepted, Bucket};
use sc_cluster::ClusterMap;
use sc_record::{CoreId, Id, List, Order};
use sc_world::{Event, can, run_events};
use std::alloc::{AllocError, Global};

/// A new bucket, by the line `bucket SHARDS REPLICAS LIMIT`, on one node. It lets no write go, so that all its entries can be told: it
/// awaits a log file that never says what it has.
pub fn new_bucket(alloc: Global, words: &[&str]) -> Result<Bucket, AllocError>
    ensures { IfOk result IsSound }
{
    let shards = number(words, 1).clamp(1, 256) as u32;
    let replicas = number(words, 2).clamp(1, 4) as u8;
    let limit = log_limit(words, 3, shards, replicas);
    let map = ClusterMap::new(alloc, shards, replicas, 1)?;
    let mut bucket = Bucket::new(alloc, &map, limit)?;
    bucket.await_file();
    Ok(bucket)
}

/// Has the event come where its condition holds, and tells what it answers.
pub fn come(alloc: Global, bucket: &mut Bucket, event: Event) -> Result<String, AllocError>
    requires { IsSound bucket.old }
    ensures { IsSound bucket.new }
{
    if !can(bucket, &event) {
        return String::from_str(alloc, "passed over");
    }
    happen(alloc, bucket, event)
}

/// Has the event come, and tells what it answers.
fn happen(alloc: Global, bucket: &mut Bucket, event: Event) -> Result<String, AllocError>
    requires { IsSound bucket.old }
    ensures { IsSound bucket.new }
{
    match event {
        Event::Accept { order, now } => accept(alloc, bucket, &order, now),
        Event::DeliverNth { k } => deliver_nth(alloc, bucket, k),
        Event::Deliver { place } => deliver(alloc, bucket, place),
        Event::Commit => commit(alloc, bucket),
        other => run(alloc, bucket, other),
    }
}

/// Has an event come that answers nothing.
fn run(alloc: Global, bucket: &mut Bucket, event: Event) -> Result<String, AllocError>
    requires { IsSound bucket.old }
    ensures { IsSound bucket.new }
{
    let mut events = List::new(alloc);
    events.push(event)?;
    run_events(alloc, bucket, &events)?;
    String::from_str(alloc, "done")
}

fn deliver_nth(alloc: Global, bucket: &mut Bucket, k: usize) -> Result<String, AllocError>
    requires { IsSound bucket.old }
    ensures { IsSound bucket.new }
{
    let core = bucket.deliver_nth(k);
    core_shown(alloc, core)
}

fn deliver(alloc: Global, bucket: &mut Bucket, place: u64) -> Result<String, AllocError>
    requires { IsSound bucket.old }
    ensures { IsSound bucket.new }
{
    let core = bucket.deliver(place);
    core_shown(alloc, core)
}

fn core_shown(alloc: Global, core: Option<CoreId>) -> Result<String, AllocError> {
    format!(in alloc; "{core:?}")
}

fn accept(alloc: Global, bucket: &mut Bucket, order: &Order, now: u64) -> Result<String, AllocError>
    requires { IsSound bucket.old }
    ensures { IsSound bucket.new }
{
    match bucket.accept(alloc, order, now) {
        Ok(Accepted { version, place }) => joined(alloc, &version, " at ", &place),
        Err(fault) => fault.to_string(alloc),
    }
}

fn commit(alloc: Global, bucket: &mut Bucket) -> Result<String, AllocError>
    requires { IsSound bucket.old }
    ensures { IsSound bucket.new }
{
    match bucket.commit(alloc) {
        Ok(()) => String::from_str(alloc, "done"),
        Err(fault) => fault.to_string(alloc),
    }
}

/// The version of an id's last write, as it is shown, by the line `read ID`.
pub fn read(alloc: Global, bucket: &Bucket, words: &[&str]) -> Result<String, AllocError>
    requires { IsSound bucket.now }
{
    let Ok(id) = Id::new(alloc, word(words, 1)) else {
        return Err(AllocError);
    };
    match bucket.read(&id) {
        Some(cell) => cell.shown().to_string(alloc),
        None => String::from_str(alloc, "none"),
    }
}
