//! `sc_shared`: two desks over one collection, in one thread and in two.

ghost use Rattle.std.specs.Prelude.{◌≡◌, ◌<◌, Some, IfOk};
ghost use Rattle.std.specs.Thread.{IsSync};
ghost use Rattle.sc_collection.specs.Desks.{nothing_out};
ghost use Rattle.sc_collection.specs.Shapes.{IsShape};
ghost use Rattle.sc_shared.specs.Collections.{layout_of};
ghost use Rattle.sc_shared.specs.Sharing.{ArePasses, out_of};

use crate::support::assert_same;
use sc_collection::{Desk, Shape, Trail, commit_all};
use sc_shared::{Collection, Home, Passes, Shared};
use std::alloc::{AllocError, Global};
use std::marker::Brand;
use std::sync::Wait;
use std::test::Fail;
use std::thread;
use std::thread::Threads;

/// How often each thread commits every bucket.
const ROUNDS: u32 = 200;

/// A new collection of this shape, and passes for three threads.
pub fn new_collection(
    alloc: Global,
    shape: &Shape,
) -> Result<(Collection, Passes, Passes, Passes), AllocError>
    requires { IsShape shape.now }
    ensures first { IfOk result (λ made. ArePasses made.0 made.1) }
    ensures second { IfOk result (λ made. ArePasses made.0 made.2) }
    ensures third { IfOk result (λ made. ArePasses made.0 made.3) }
    ensures buckets { IfOk result (λ made. (layout_of made.0).buckets ≡ shape.now.buckets) }
{
    let (collection, mut passes) = Collection::new(alloc, shape)?;
    let second = collection.split_passes(alloc, &mut passes)?;
    let third = collection.split_passes(alloc, &mut passes)?;
    Ok((collection, passes, second, third))
}

/// Two buckets, in a collection of one shard with one replica.
fn two_buckets() -> Shape
    ensures shape { IsShape result }
    ensures two { result.buckets ≡ 2 }
{
    Shape {
        nodes: 1,
        shards: 1,
        replicas: 1,
        buckets: 2,
        log_limit: 1_024,
    }
}

/// The passes of a desk over this collection.
pub fn passes_of<R, N: Home>(collection: &Collection, desk: Shared<R, N>) -> Passes
    requires home { N.locks ≡ Some collection.now }
    requires nothing_out { out_of desk ≡ nothing_out }
    ensures { ArePasses collection.now result }
{
    desk.into_passes()
}

/// Holds the first bucket by one desk and the second by another at the same time. With one lock round both it would wait for ever. The
/// answer is how many entries the two have.
fn entries_of_both<D: Desk>(one: &mut D, other: &mut D) -> u64
    requires one { (D.out one.old ≡ nothing_out) × (1 < (D.layout one.old).buckets) }
    requires other { (D.out other.old ≡ nothing_out) × (1 < (D.layout other.old).buckets) }
    ensures one { D.out one.new ≡ nothing_out }
    ensures other { D.out other.new ≡ nothing_out }
{
    let first = one.hold(0);
    let second = other.hold(1);
    let entries = first.entries().saturating_add(second.entries());
    one.give(0, first);
    other.give(1, second);
    entries
}

/// What the two have, by a desk for each of these passes.
fn entries_by_two<R: Wait, N: Home>(
    rt: &R,
    collection: &Collection,
    passes: Passes,
    others: Passes,
) -> u64
    requires home { N.locks ≡ Some collection.now }
    requires passes { ArePasses collection.now passes }
    requires others { ArePasses collection.now others }
    requires two { (layout_of collection.now).buckets ≡ 2 }
{
    let mut one = Shared::<R, N>::new(rt, collection, passes);
    let mut other = Shared::<R, N>::new(rt, collection, others);
    let entries = entries_of_both(&mut one, &mut other);
    let mut passes = passes_of(collection, one);
    collection.join_passes(&mut passes, passes_of(collection, other));
    entries
}

#[test]
fn each_bucket_has_a_lock_of_its_own(rt: HostRuntime) -> Result<(), Fail> {
    let (collection, passes, others, _) = new_collection(rt.alloc(), &two_buckets())?;
    let entries = entries_by_two::<HostRuntime, Brand>(&rt, &collection, passes, others);
    assert_same(&rt, entries, 0);
    Ok(())
}

/// Commits every bucket by a desk of its own.
fn commit<R: Wait, N: Home>(
    rt: &R,
    alloc: Global,
    collection: &Collection,
    passes: Passes,
) -> Result<Passes, AllocError>
    requires home { N.locks ≡ Some collection.now }
    requires passes { ArePasses collection.now passes }
    requires two { (layout_of collection.now).buckets ≡ 2 }
    ensures { IfOk result (ArePasses collection.now) }
{
    let mut trail = Trail::new(alloc)?;
    let mut desk = Shared::<R, N>::new(rt, collection, passes);
    let fault = commit_all(alloc, &mut desk, &mut trail);
    drop(trail);
    let passes = passes_of(collection, desk);
    if fault.is_some() {
        return Err(AllocError);
    }
    Ok(passes)
}

/// Commits every bucket, again and again.
fn commit_often<R: Wait>(
    rt: &R,
    alloc: Global,
    collection: &Collection,
    passes: Passes,
) -> Result<Passes, AllocError>
    requires passes { ArePasses collection.now passes }
    requires two { (layout_of collection.now).buckets ≡ 2 }
    ensures { IfOk result (ArePasses collection.now) }
{
    let mut passes = passes;
    for _ in 0..ROUNDS {
        passes = commit::<R, Brand>(rt, alloc, collection, passes)?;
    }
    Ok(passes)
}

/// Two threads commit every bucket, each by passes of its own, which are brought together at the end.
fn commit_in_two<R: Threads + Wait + Sync>(
    rt: &R,
    alloc: Global,
    collection: &Collection,
    passes: Passes,
    others: Passes,
) -> Result<Passes, AllocError>
    requires passes { ArePasses collection.now passes }
    requires others { ArePasses collection.now others }
    requires two { (layout_of collection.now).buckets ≡ 2 }
    ensures { IfOk result (ArePasses collection.now) }
{
    let (one, other) = thread::join(
        rt,
        move || -> Result<Passes, AllocError>
            requires passes { ArePasses collection.now passes }
            requires two { (layout_of collection.now).buckets ≡ 2 }
            requires shared { IsSync R.row }
            ensures { IfOk result (ArePasses collection.entry.now) }
        { commit_often(rt, alloc, collection, passes) },
        move || -> Result<Passes, AllocError>
            requires others { ArePasses collection.now others }
            requires two { (layout_of collection.now).buckets ≡ 2 }
            requires shared { IsSync R.row }
            ensures { IfOk result (ArePasses collection.entry.now) }
        { commit_often(rt, alloc, collection, others) },
    );
    let mut one = one?;
    collection.join_passes(&mut one, other?);
    Ok(one)
}

#[test]
fn two_threads_lose_no_commit(rt: HostRuntime) -> Result<(), Fail> {
    let alloc = rt.alloc();
    let (collection, passes, others, watching) = new_collection(alloc, &two_buckets())?;
    let passes = commit_in_two(&rt, alloc, &collection, passes, others)?;
    let entries = entries_by_two::<HostRuntime, Brand>(&rt, &collection, passes, watching);
    assert_same(&rt, entries, u64::from(2 * 2 * ROUNDS));
    Ok(())
}
