ghost use Rattle.std.specs.Prelude.{◌≡◌, ◌<◌, ◌+◌, ◌≤◌, [], ◌∷◌, IsSome, length};
ghost use Rattle.sc_router.specs.Route.{bucket_of};
ghost use Rattle.sc_journal.specs.Journal.{write_at};
ghost use Rattle.sc_seen.specs.Moments.{Keeps};
ghost use Rattle.sc_bucket.specs.Sound.{IsSound};
ghost use Rattle.sc_bucket.specs.Events.{outcome_of};
ghost use Rattle.sc_collection.specs.Kept.{trail_room};
ghost use Rattle.sc_collection.specs.Desks.{nothing_out};
ghost use Rattle.sc_collection.specs.Resting.{looked_at, LeavesAtRest};
ghost use Rattle.sc_update.specs.Moments.{KeepsCores, moment_at};
ghost use Rattle.sc_update.specs.Steps.{MakeNoEntry, Holds, HoldsWhereIdle, Tries, SettlesFirst, SettlesWhere, CarriesOut};

use sc_bucket::{AcceptFault, Accepted, Bucket};
use sc_collection::{Desk, Stop, Trail};
use sc_io::{Clock, Hosts};
use sc_record::Order;
use sc_router::bucket_of;
use std::alloc::Global;

/// How many messages of a write are delivered at most, each in a hold of its own, before the hold that settles it. It delivers
/// those that are left.
const MAX_DELIVERIES: usize = 7;

/// Carries out an order at a timestamp, in milliseconds, in one hold of its id's bucket, and keeps that stop.
fn accept_at<D: Desk>(
    alloc: Global,
    desk: &mut D,
    trail: &mut Trail,
    b: u32,
    order: &Order,
    now: u64,
) -> (Stop, Result<Accepted, AcceptFault>)
    requires nothing_out { D.out desk.old ≡ nothing_out }
    requires within { b < (D.layout desk.old).buckets }
    requires bucket { b ≡ bucket_of order.now.id (D.layout desk.old).buckets }
    requires room { length trail.old.stops < trail_room }
    ensures keeps { Keeps (D.layout desk.old) (looked_at D.Desk desk.old trail.old) (looked_at D.Desk desk.new trail.new) (result.0 ∷ []) }
    ensures tried { Tries (D.layout desk.old) (D.seen desk.new) order.now now result.0 result.1 }
    ensures leaves { LeavesAtRest D.Desk desk.old trail.old desk.new trail.new }
{
    let mut bucket = desk.hold(b);
    let place = bucket.entries();
    let answer = bucket.accept(alloc, order, now);
    desk.give(b, bucket);
    let stop = Stop {
        lock: b,
        place,
        made: answer.is_ok(),
    };
    trail.keep(stop);
    (stop, answer)
}

/// What a hold came to in which a message of a write was to be delivered.
#[derive(Drop)]
enum Delivery {
    /// One was delivered, and the bucket was given back.
    Delivered,
    /// None was in flight, and the bucket is held still.
    Idle(Bucket),
}

/// Holds the bucket and delivers the first message in flight of the write at this place, where there is one.
fn deliver_one<D: Desk>(desk: &mut D, lock: u32, place: u64) -> Delivery
    requires nothing_out { D.out desk.old ≡ nothing_out }
    requires within { lock < (D.layout desk.old).buckets }
    ensures quiet { MakeNoEntry (D.seen desk.old) (D.seen desk.new) lock }
    ensures held { HoldsWhereIdle (D.layout desk.old) (D.seen desk.new) (D.out desk.new) lock result }
    ensures layout { D.layout desk.new ≡ D.layout desk.old }
{
    let mut bucket = desk.hold(lock);
    if bucket.deliver(place).is_none() {
        return Delivery::Idle(bucket);
    }
    desk.give(lock, bucket);
    Delivery::Delivered
}

/// Holds the bucket of the write at this place, after holds that each deliver a message of the write, as long as there are some.
fn hold_delivered<D: Desk>(desk: &mut D, lock: u32, place: u64) -> Bucket
    requires nothing_out { D.out desk.old ≡ nothing_out }
    requires within { lock < (D.layout desk.old).buckets }
    ensures quiet { MakeNoEntry (D.seen desk.old) (D.seen desk.new) lock }
    ensures held { Holds (D.layout desk.old) (D.seen desk.new) (D.out desk.new) lock result }
    ensures layout { D.layout desk.new ≡ D.layout desk.old }
{
    for _delivery in 0..MAX_DELIVERIES {
        if let Delivery::Idle(bucket) = deliver_one(desk, lock, place) {
            return bucket;
        }
    }
    desk.hold(lock)
}

/// Settles the write that a stop made, in a hold of its bucket after those that deliver its messages, unless it is settled by
/// then, and keeps that stop.
fn settle_at<D: Desk>(desk: &mut D, trail: &mut Trail, first: Stop)
    requires nothing_out { D.out desk.old ≡ nothing_out }
    requires within { first.lock < (D.layout desk.old).buckets }
    requires written { IsSome (write_at ((D.seen desk.old).journals first.lock) first.place) }
    requires room { length trail.old.stops < trail_room }
    ensures settles { SettlesFirst (D.layout desk.old) (looked_at D.Desk desk.old trail.old) (looked_at D.Desk desk.new trail.new) first }
    ensures leaves { LeavesAtRest D.Desk desk.old trail.old desk.new trail.new }
{
    let mut bucket = hold_delivered(desk, first.lock, first.place);
    let place = bucket.entries();
    let made = settle_write(&mut bucket, first.place);
    desk.give(first.lock, bucket);
    trail.keep(Stop {
        lock: first.lock,
        place,
        made,
    });
}

/// Settles the write at a place, and reports whether that took an entry: where the write is settled by then, it takes none.
fn settle_write(bucket: &mut Bucket, place: u64) -> bool
    requires sound { IsSound bucket.old }
    requires written { IsSome (write_at bucket.old.journal.entries place) }
    ensures sound { IsSound bucket.new }
    ensures settles { SettlesWhere result bucket.old place bucket.new }
{
    if bucket.is_settled(place) {
        return false;
    }
    bucket.settle(place);
    true
}

/// Carries out one order at the time that the clock reports, and settles its write where it is accepted.
pub(crate) fn carry_out<D: Desk, C: Clock, H: Hosts>(
    alloc: Global,
    desk: &mut D,
    clock: &mut C,
    hosts: &mut H,
    trail: &mut Trail,
    order: &Order,
) -> Result<Accepted, AcceptFault>
    requires nothing_out { D.out desk.old ≡ nothing_out }
    requires room { length trail.old.stops + 2 ≤ trail_room }
    ensures carried { CarriesOut C.gives (D.layout desk.old) order.now
        (moment_at D.Desk H.Hosts desk.old clock.old hosts.old trail.old)
        (moment_at D.Desk H.Hosts desk.new clock.new hosts.new trail.new) (outcome_of result) }
    ensures leaves { LeavesAtRest D.Desk desk.old trail.old desk.new trail.new }
    ensures stops { length trail.new.stops ≤ length trail.old.stops + 2 }
    ensures cores { KeepsCores H.Hosts hosts.old hosts.new }
{
    let now = clock.now();
    let buckets = desk.buckets();
    let b = bucket_of(order.id.as_str(), buckets);
    let (first, answer) = accept_at(alloc, desk, trail, b, order, now);
    if answer.is_ok() {
        settle_at(desk, trail, first);
    }
    answer
}
