//! `sc_lock`: threads that add to one list under a lock, and a keeper that gives back.

ghost use Rattle.std.specs.Prelude.{◌≡◌, ℕ, ◌+◌, ◌^◌, ◌<◌, ◌*◌, ⊤, None, Some, IfOk, refl};
ghost use Rattle.std.proofs.lemmas.Option.{none-some};
ghost use Rattle.sc_lock.specs.Journal.{GrowsByAtMostOne};
ghost use Rattle.std.specs.Thread.{IsSync};
ghost use Rattle.sc_lock.specs.Tokens.{lock_id, IsPassOf, IsFree, IsKeeperOf, IsFreeKeeper, keeper_part};

use crate::support::assert_same;
use sc_lock::{Badge, Keeper, Kept, Lock, Pass, Turn};
use std::alloc::AllocError;
use std::sync::Wait;
use std::sync::atomic::{AtomicBool, Ordering};
use std::thread;
use std::thread::Threads;
use std::time::{Clock, Duration};

// A list of numbers, and a mark that the keeper sets.
#[derive(Drop)]
struct Numbers {
    list: Vec<u64>,
    mark: u64,
}

impl Kept for Numbers {
    type Entry = u64;

    type Part = u64;

    ghost Name = { ℕ };

    ghost journal = { λ n. n.list.items };

    ghost sound = { λ n. ⊤ };

    ghost step = { λ x y. GrowsByAtMostOne x.list.items y.list.items };

    ghost part = { λ n. n.mark };

    ghost name = { λ n. 0 };

    ghost owned = { λ j. None };

    fn entries(&self) -> u64 {
        self.list.len() as u64
    }

    ghost steps_keep_name = { λ x y s. refl };

    ghost owned_inside = { λ j p e. absurd (none-some p e) };

    ghost owned_stays = { λ j p n e l. e };
}

// One hold that adds a number.
fn append<R: Wait>(
    rt: &R,
    lock: &Lock<Numbers>,
    pass: &mut Pass<Numbers>,
    number: u64,
) -> Result<(), AllocError>
    requires { IsPassOf (lock_id lock.now) pass.old × IsFree pass.old }
    ensures { IsPassOf (lock_id lock.now) pass.new × IsFree pass.new }
{
    let (mut numbers, turn) = lock.hold(rt, pass);
    let pushed = numbers.list.push(number);
    lock.give(pass, turn, numbers);
    pushed?;
    Ok(())
}

// Adds the numbers from first on, each in a hold of its own.
fn append_all<R: Wait>(
    rt: &R,
    lock: &Lock<Numbers>,
    mut pass: Pass<Numbers>,
    first: u64,
    count: u64,
) -> Result<Pass<Numbers>, AllocError>
    requires pass { IsPassOf (lock_id lock.now) pass × IsFree pass }
    requires fits { first + count < 2 ^ 64 }
    ensures { IfOk result (λ r. IsPassOf (lock_id lock.now) r × IsFree r) }
{
    for number in first..first + count {
        append(rt, lock, &mut pass, number)?;
    }
    Ok(pass)
}

// Two threads with a pass of their own each, joined at the end.
fn two<R: Threads + Wait + Sync>(
    rt: &R,
    lock: &Lock<Numbers>,
    one: Pass<Numbers>,
    other: Pass<Numbers>,
    first: u64,
    count: u64,
) -> Result<Pass<Numbers>, AllocError>
    requires one { IsPassOf (lock_id lock.now) one × IsFree one }
    requires other { IsPassOf (lock_id lock.now) other × IsFree other }
    requires fits { first + 2 * count < 2 ^ 64 }
    ensures { IfOk result (λ r. IsPassOf (lock_id lock.now) r × IsFree r) }
{
    let (one, other) = thread::join(
        rt,
        move || -> Result<Pass<Numbers>, AllocError>
            requires one { IsPassOf (lock_id lock.now) one × IsFree one }
            requires fits { first + 2 * count < 2 ^ 64 }
            ensures { IfOk result (λ r. IsPassOf (lock_id lock.entry.now) r × IsFree r) }
        { append_all(rt, lock, one, first, count) },
        move || -> Result<Pass<Numbers>, AllocError>
            requires other { IsPassOf (lock_id lock.now) other × IsFree other }
            requires fits { first + 2 * count < 2 ^ 64 }
            ensures { IfOk result (λ r. IsPassOf (lock_id lock.entry.now) r × IsFree r) }
        { append_all(rt, lock, other, first + count, count) },
    );
    let mut one = one?;
    lock.join_pass(&mut one, other?);
    Ok(one)
}

// Four threads in the same way.
fn four<R: Threads + Wait + Sync>(
    rt: &R,
    lock: &Lock<Numbers>,
    passes: (Pass<Numbers>, Pass<Numbers>, Pass<Numbers>, Pass<Numbers>),
    first: u64,
    count: u64,
) -> Result<Pass<Numbers>, AllocError>
    requires one { IsPassOf (lock_id lock.now) passes.0 × IsFree passes.0 }
    requires two { IsPassOf (lock_id lock.now) passes.1 × IsFree passes.1 }
    requires three { IsPassOf (lock_id lock.now) passes.2 × IsFree passes.2 }
    requires four { IsPassOf (lock_id lock.now) passes.3 × IsFree passes.3 }
    requires fits { first + 4 * count < 2 ^ 64 }
    ensures { IfOk result (λ r. IsPassOf (lock_id lock.now) r × IsFree r) }
{
    let (one, other, third, fourth) = passes;
    let (left, right) = thread::join(
        rt,
        move || -> Result<Pass<Numbers>, AllocError>
            requires one { IsPassOf (lock_id lock.now) one × IsFree one }
            requires other { IsPassOf (lock_id lock.now) other × IsFree other }
            requires fits { first + 4 * count < 2 ^ 64 }
            requires shared { IsSync R.row }
            ensures { IfOk result (λ r. IsPassOf (lock_id lock.entry.now) r × IsFree r) }
        { two(rt, lock, one, other, first, count) },
        move || -> Result<Pass<Numbers>, AllocError>
            requires third { IsPassOf (lock_id lock.now) third × IsFree third }
            requires fourth { IsPassOf (lock_id lock.now) fourth × IsFree fourth }
            requires fits { first + 4 * count < 2 ^ 64 }
            requires shared { IsSync R.row }
            ensures { IfOk result (λ r. IsPassOf (lock_id lock.entry.now) r × IsFree r) }
        { two(rt, lock, third, fourth, first + 2 * count, count) },
    );
    let mut left = left?;
    lock.join_pass(&mut left, right?);
    Ok(left)
}

// Whether the numbers from first on stand in the list in order, that many of them.
fn has_run(list: &[u64], first: u64, count: u64) -> bool {
    let end = first.wrapping_add(count);
    let mut next = first;
    for number in list {
        if *number == next && next != end {
            next = next.wrapping_add(1);
        }
    }
    next == end
}

// Whether the list has as many numbers as all threads added, and each thread's in order.
fn has_all<R: Wait>(
    rt: &R,
    lock: &Lock<Numbers>,
    pass: &mut Pass<Numbers>,
    threads: u64,
    count: u64,
) -> bool
    requires { IsPassOf (lock_id lock.now) pass.old × IsFree pass.old }
    ensures { IsPassOf (lock_id lock.now) pass.new × IsFree pass.new }
{
    let (numbers, turn) = lock.hold(rt, pass);
    let mut all = numbers.entries() == threads.wrapping_mul(count);
    for thread in 0..threads {
        let run = has_run(numbers.list.as_slice(), thread.wrapping_mul(count), count);
        all = all && run;
    }
    lock.give(pass, turn, numbers);
    all
}

// The keeper sets the mark.
fn mark<R: Wait>(rt: &R, lock: &Lock<Numbers>, keeper: &mut Keeper<Numbers>, mark: u64)
    requires { IsKeeperOf (lock_id lock.now) keeper.old × IsFreeKeeper keeper.old }
    ensures keeper { IsKeeperOf (lock_id lock.now) keeper.new × IsFreeKeeper keeper.new }
    ensures mark { keeper_part keeper.new ≡ Some mark }
{
    let (mut numbers, turn) = lock.hold_keeper(rt, keeper);
    numbers.mark = mark;
    lock.give_keeper(keeper, turn, numbers);
}

// The mark that the keeper finds.
fn mark_found<R: Wait>(rt: &R, lock: &Lock<Numbers>, keeper: &mut Keeper<Numbers>) -> u64
    requires { IsKeeperOf (lock_id lock.now) keeper.old × IsFreeKeeper keeper.old }
    ensures keeper { IsKeeperOf (lock_id lock.now) keeper.new × IsFreeKeeper keeper.new }
    ensures mark { keeper_part keeper.old ≡ Some result }
{
    let (numbers, turn) = lock.hold_keeper(rt, keeper);
    let mark = numbers.mark;
    lock.give_keeper(keeper, turn, numbers);
    mark
}

// Sleeps until the test holds, ten seconds at most, and answers whether it does.
fn sleep_until<R: Clock, F: Fn() -> bool>(rt: &R, test: F) -> bool
    requires { F.IsAlwaysCallable test }
{
    for _ in 0..1000u64 {
        if test() {
            return true;
        }
        thread::sleep(rt, Duration::from_millis(10));
    }
    false
}

// Where two threads have come.
#[derive(Drop)]
struct Marks {
    keeper_holds: AtomicBool,
    pass_held: AtomicBool,
}

// One hold, once the keeper holds.
fn hold_after_keeper<R: Clock + Wait>(
    rt: &R,
    lock: &Lock<Numbers>,
    mut pass: Pass<Numbers>,
    marks: &Marks,
)
    requires { IsPassOf (lock_id lock.now) pass × IsFree pass }
{
    sleep_until(rt, || marks.keeper_holds.load(Ordering::SeqCst));
    let (numbers, turn) = lock.hold(rt, &mut pass);
    marks.pass_held.store(true, Ordering::SeqCst);
    lock.give(&mut pass, turn, numbers);
}

// The keeper holds, gives back after a time in which the pass goes to sleep for its turn, and answers whether the
// pass got it then and not before. A pass that is not woken never ends.
fn give_to_waiter<R: Clock + Wait>(
    rt: &R,
    lock: &Lock<Numbers>,
    mut keeper: Keeper<Numbers>,
    marks: &Marks,
) -> bool
    requires { IsKeeperOf (lock_id lock.now) keeper × IsFreeKeeper keeper }
{
    let (numbers, turn) = lock.hold_keeper(rt, &mut keeper);
    marks.keeper_holds.store(true, Ordering::SeqCst);
    thread::sleep(rt, Duration::from_millis(300));
    let early = marks.pass_held.load(Ordering::SeqCst);
    lock.give_keeper(&mut keeper, turn, numbers);
    let woken = sleep_until(rt, || marks.pass_held.load(Ordering::SeqCst));
    !early && woken
}

fn sends<T: Send>(_: &T) {}

fn shares<T: Sync>(_: &T) {}

// Locks, passes, keepers, turns and badges may cross threads where the value may.
fn cross<K: Kept + Send>(
    lock: &Lock<K>,
    pass: &Pass<K>,
    keeper: &Keeper<K>,
    turn: &Turn<K>,
    badge: &Badge<K>,
) {
    sends(lock);
    shares(lock);
    sends(pass);
    sends(keeper);
    sends(turn);
    sends(badge);
}

#[test]
fn four_threads_add_ten_thousand_each(rt: HostRuntime) -> Result<(), AllocError> {
    let numbers = Numbers {
        list: Vec::new(rt.alloc()),
        mark: 0,
    };
    let (lock, mut one, mut keeper) = Lock::new(rt.alloc(), numbers)?;
    mark(&rt, &lock, &mut keeper, 7);
    let others = (
        lock.split_pass(&mut one),
        lock.split_pass(&mut one),
        lock.split_pass(&mut one),
    );
    let passes = (one, others.0, others.1, others.2);
    let mut pass = four(&rt, &lock, passes, 0, 10000)?;
    assert!(rt; has_all(&rt, &lock, &mut pass, 4, 10000));
    assert_same(&rt, mark_found(&rt, &lock, &mut keeper), 7);
    lock.meet(&mut pass, &mut keeper);
    let badge = lock.badge(&keeper)?;
    let (numbers, turn) = lock.hold(&rt, &mut pass);
    cross(&lock, &pass, &keeper, &turn, &badge);
    lock.give(&mut pass, turn, numbers);
    Ok(())
}

#[test]
fn a_keeper_that_gives_back_wakes_a_pass(rt: HostRuntime) -> Result<(), AllocError> {
    let numbers = Numbers {
        list: Vec::new(rt.alloc()),
        mark: 0,
    };
    let (lock, pass, keeper) = Lock::new(rt.alloc(), numbers)?;
    let marks = Marks {
        keeper_holds: AtomicBool::new(false),
        pass_held: AtomicBool::new(false),
    };
    let (woken, ()) = thread::join(
        &rt,
        || give_to_waiter(&rt, &lock, keeper, &marks),
        || hold_after_keeper(&rt, &lock, pass, &marks),
    );
    assert!(rt; woken);
    Ok(())
}
