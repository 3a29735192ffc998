ghost use Rattle.std.specs.Prelude.{◌≡◌, OnOk, OnErr};
ghost use Rattle.sc_bucket.specs.Sound.{IsSound};
ghost use Rattle.sc_handover.specs.Conditions.{CanBegin, CanRejoin};
ghost use Rattle.sc_world.specs.declared.event.Event.TheVariants as events;
ghost use Rattle.sc_world.specs.Steps.{Can, FindsNoMemory};
ghost use Rattle.sc_world.specs.Runs.{IsStepped};
ghost use Rattle.sc_world.specs.Checks.{lacks_memory};

use crate::event::Event;
use sc_bucket::{AcceptFault, Accepted, Bucket, CommitFault};
use sc_cluster::SplitPlan;
use sc_handover::{
    BeginFault, RejoinFault, abort, begin, drop_shard, feed_piece, grow, ready, rejoin,
    replay_piece, start_replay, switch, take_lead,
};
use sc_record::{CoreId, Order};
use std::alloc::{AllocError, Global};

/// Has the event come, whose condition holds. An error means out of memory.
pub(crate) fn step(alloc: Global, bucket: &mut Bucket, event: &Event) -> Result<(), AllocError>
    requires sound { IsSound bucket.old }
    requires can { Can bucket.old event.now }
    ensures sound { IsSound bucket.new }
    ensures stepped { OnOk result (IsStepped bucket.old event.now bucket.new) }
    ensures out { OnErr result (FindsNoMemory bucket.old event.now bucket.new) }
{
    match event {
        Event::Accept { order, now } => accept_order(alloc, bucket, order, *now),
        Event::DeliverNth { k } => {
            let _core = bucket.deliver_nth(*k);
            Ok(())
        }
        Event::Deliver { place } => {
            let _core = bucket.deliver(*place);
            Ok(())
        }
        Event::Settle { place } => {
            bucket.settle(*place);
            Ok(())
        }
        Event::Commit => commit_bucket(alloc, bucket),
        Event::Detach { core } => {
            bucket.detach(*core);
            Ok(())
        }
        Event::Rejoin { core } => rejoin_core(alloc, bucket, *core),
        Event::Lead { core } => {
            take_lead(bucket, *core);
            Ok(())
        }
        Event::Begin { plan } => begin_split(alloc, bucket, plan),
        Event::Feed { core } => {
            let _is_done = feed_piece(bucket, *core);
            Ok(())
        }
        Event::StartReplay { core } => {
            start_replay(bucket, *core);
            Ok(())
        }
        Event::Replay { core } => {
            let _is_done = replay_piece(bucket, *core);
            Ok(())
        }
        Event::Ready => {
            ready(bucket);
            Ok(())
        }
        Event::Grow { core } => grow(alloc, bucket, *core),
        Event::Switch => {
            switch(bucket);
            Ok(())
        }
        Event::Abort => {
            abort(bucket);
            Ok(())
        }
        Event::Drop { slice } => {
            drop_shard(bucket, *slice);
            Ok(())
        }
    }
}

// Carries out the order, or refuses it.
fn accept_order(
    alloc: Global,
    bucket: &mut Bucket,
    order: &Order,
    now: u64,
) -> Result<(), AllocError>
    requires { IsSound bucket.old }
    ensures sound { IsSound bucket.new }
    ensures stepped { OnOk result (IsStepped bucket.old (events.Accept order.now now) bucket.new) }
    ensures out { OnErr result (FindsNoMemory bucket.old (events.Accept order.now now) bucket.new) }
{
    let answered = bucket.accept(alloc, order, now);
    if is_out_of_memory(&answered) {
        return Err(AllocError);
    }
    Ok(())
}

// Memory ran out.
fn is_out_of_memory(answered: &Result<Accepted, AcceptFault>) -> bool
    ensures { result ≡ lacks_memory answered.now }
{
    matches!(answered, Err(AcceptFault::Memory))
}

// Commits, or refuses to where the journal is full.
fn commit_bucket(alloc: Global, bucket: &mut Bucket) -> Result<(), AllocError>
    requires { IsSound bucket.old }
    ensures sound { IsSound bucket.new }
    ensures stepped { OnOk result (IsStepped bucket.old events.Commit bucket.new) }
    ensures out { OnErr result (FindsNoMemory bucket.old events.Commit bucket.new) }
{
    match bucket.commit(alloc) {
        Err(CommitFault::Memory) => Err(AllocError),
        Ok(()) | Err(CommitFault::LogFull) => Ok(()),
    }
}

// Begins the split, or refuses to where the journal is full.
fn begin_split(alloc: Global, bucket: &mut Bucket, plan: &SplitPlan) -> Result<(), AllocError>
    requires sound { IsSound bucket.old }
    requires can { CanBegin bucket.old plan.now.parent plan.now.subs }
    ensures sound { IsSound bucket.new }
    ensures stepped { OnOk result (IsStepped bucket.old (events.Begin plan.now) bucket.new) }
    ensures out { OnErr result (FindsNoMemory bucket.old (events.Begin plan.now) bucket.new) }
{
    match begin(alloc, bucket, plan) {
        Ok(()) => Ok(()),
        Err(BeginFault::LogFull) => Ok(()),
        Err(BeginFault::Memory) => Err(AllocError),
    }
}

// Has the core rejoin, or refuses to where the journal is full.
fn rejoin_core(alloc: Global, bucket: &mut Bucket, core: CoreId) -> Result<(), AllocError>
    requires sound { IsSound bucket.old }
    requires can { CanRejoin bucket.old core }
    ensures sound { IsSound bucket.new }
    ensures stepped { OnOk result (IsStepped bucket.old (events.Rejoin core) bucket.new) }
    ensures out { OnErr result (FindsNoMemory bucket.old (events.Rejoin core) bucket.new) }
{
    match rejoin(alloc, bucket, core) {
        Ok(()) => Ok(()),
        Err(RejoinFault::LogFull) => Ok(()),
        Err(RejoinFault::Memory) => Err(AllocError),
    }
}
