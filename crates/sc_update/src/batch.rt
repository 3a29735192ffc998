ghost use Rattle.std.specs.Prelude.{◌≡◌, ◌+◌, ◌*◌, ◌≤◌, length, Some, None, Err, true, false};
ghost use Rattle.sc_seen.specs.Batches.{deletes};
ghost use Rattle.sc_bucket.specs.Events.{outcome_of};
ghost use Rattle.sc_collection.specs.Kept.{trail_room};
ghost use Rattle.sc_collection.specs.Resting.{Rests, LeavesAtRest};
ghost use Rattle.sc_record.specs.Orders.{order_limit};
ghost use Rattle.sc_update.specs.Updated.{IsUpdated, order_fault, commit_fault};
ghost use Rattle.sc_update.specs.Moments.{KeepsCores, moment_at};
ghost use Rattle.sc_collection.specs.Committing.{commit_outcome};
ghost use Rattle.sc_update.specs.Steps.{AnswersAll, Takes, HasRoomToShowOne, ending};

use crate::end::{BatchEnd, BatchFault};
use crate::order::carry_out;
use crate::shown::{Shown, is_deletion, shown_id};
use sc_bucket::{AcceptFault, CommitFault};
use sc_collection::{Desk, Trail, commit_all};
use sc_commands::{Batch, Flags};
use sc_io::{Clock, Hosts};
use sc_record::{Ack, Order};
use std::alloc::Global;

/// Carries out the orders of a batch one after another, and then commits where the batch asks for it and nothing stopped its
/// orders.
///
/// For each order the clock is read, the id's bucket is held and the order is carried out. Where it is accepted, up to
/// seven further holds of the bucket come next, to deliver messages; the contract says of them only that they make no
/// entry, since a desk does not show what is in flight. The first of them that finds no message of the write, or the hold after
/// them, settles the write. The hold that carries out the order and the one that settles its write are the order's stops of the
/// trail. The orders end at the first that is not accepted, but a conflict is passed over where the batch says so. The lists of
/// what is shown take their room first: where there is none, memory ran out and nothing was accepted. The hosts are asked nothing,
/// and no order notes a core as down.
///
/// A commit holds each bucket in turn, one stop each (Solr Reference Guide, "Commits and Transaction Logs"). One that is refused
/// leaves its bucket as it was and does not end the round. Then memory ran out where it did in some bucket; else the log is full
/// where it was in one.
pub fn update<D: Desk, C: Clock, H: Hosts>(
    alloc: Global,
    desk: &mut D,
    clock: &mut C,
    hosts: &mut H,
    trail: &mut Trail,
    batch: &Batch,
) -> BatchEnd
    requires rest { Rests D.Desk desk.old }
    requires orders { length batch.now.orders ≤ order_limit }
    requires room { length trail.old.stops + 2 * length batch.now.orders + (D.layout desk.old).buckets ≤ trail_room }
    ensures updated { IsUpdated C.gives (D.layout desk.old) batch.now
        (moment_at D.Desk H.Hosts desk.old clock.old hosts.old trail.old)
        (moment_at D.Desk H.Hosts desk.new clock.new hosts.new trail.new) result }
    ensures leaves { LeavesAtRest D.Desk desk.old trail.old desk.new trail.new }
    ensures cores { KeepsCores H.Hosts hosts.old hosts.new }
{
    let mut end = take_orders(alloc, desk, clock, hosts, trail, batch);
    if batch.flags.commit && end.fault.is_none() {
        end.fault = commit_fault(commit_all(alloc, desk, trail));
    }
    end
}

/// What is reported of commits that came to this together.
fn commit_fault(fault: Option<CommitFault>) -> Option<BatchFault>
    ensures { result ≡ commit_fault (commit_outcome fault) }
{
    match fault {
        None => None,
        Some(CommitFault::LogFull) => Some(BatchFault::LogFull),
        Some(CommitFault::Memory) => Some(BatchFault::Memory),
    }
}

/// Carries out the orders of a batch one after another.
fn take_orders<D: Desk, C: Clock, H: Hosts>(
    alloc: Global,
    desk: &mut D,
    clock: &mut C,
    hosts: &mut H,
    trail: &mut Trail,
    batch: &Batch,
) -> BatchEnd
    requires rest { Rests D.Desk desk.old }
    requires orders { length batch.now.orders ≤ order_limit }
    requires room { length trail.old.stops + 2 * length batch.now.orders ≤ trail_room }
    ensures answers { AnswersAll C.gives (D.layout desk.old) batch.now
        (moment_at D.Desk H.Hosts desk.old clock.old hosts.old trail.old)
        (moment_at D.Desk H.Hosts desk.new clock.new hosts.new trail.new) result }
    ensures leaves { LeavesAtRest D.Desk desk.old trail.old desk.new trail.new }
    ensures stops { length trail.new.stops ≤ length trail.old.stops + 2 * length batch.now.orders }
    ensures cores { KeepsCores H.Hosts hosts.old hosts.new }
{
    let orders = batch.orders.as_slice();
    let mut shown = match Shown::with_room(alloc, orders, batch.flags.versions) {
        Ok(shown) => shown,
        Err(_) => return Shown::none(alloc).end(Some(BatchFault::Memory)),
    };
    for (at, order) in orders.iter().enumerate() {
        let end = take_order(
            alloc,
            desk,
            clock,
            hosts,
            trail,
            &mut shown,
            order,
            batch.flags,
        );
        if let Some(fault) = end {
            return shown.end(Some(order_fault(at, fault)));
        }
    }
    shown.end(None)
}

/// Carries out one order, and shows what was accepted where versions are asked for. A fault is reported where orders end at it.
fn take_order<D: Desk, C: Clock, H: Hosts>(
    alloc: Global,
    desk: &mut D,
    clock: &mut C,
    hosts: &mut H,
    trail: &mut Trail,
    shown: &mut Shown,
    order: &Order,
    flags: Flags,
) -> Option<AcceptFault>
    requires rest { Rests D.Desk desk.old }
    requires room { length trail.old.stops + 2 ≤ trail_room }
    requires shows { flags.versions ≡ true → HasRoomToShowOne (deletes order.now.change) shown.old }
    ensures takes { Takes C.gives (D.layout desk.old) flags order.now
        (record { moment = moment_at D.Desk H.Hosts desk.old clock.old hosts.old trail.old; shown = shown.old; ended = None })
        (record { moment = moment_at D.Desk H.Hosts desk.new clock.new hosts.new trail.new; shown = shown.new; ended = result }) }
    ensures leaves { LeavesAtRest D.Desk desk.old trail.old desk.new trail.new }
    ensures stops { length trail.new.stops ≤ length trail.old.stops + 2 }
    ensures cores { KeepsCores H.Hosts hosts.old hosts.new }
{
    let id = match shown_id(alloc, &order.id, flags.versions) {
        Ok(id) => id,
        Err(_) => return Some(AcceptFault::Memory),
    };
    match carry_out(alloc, desk, clock, hosts, trail, order) {
        Ok(accepted) => {
            let version = accepted.version;
            match id {
                Some(id) => shown.push(is_deletion(&order.change), Ack { id, version }),
                None => {}
            }
            None
        }
        Err(fault) => ending(fault, flags.fail_on_conflict),
    }
}

/// The fault, where orders end at it.
fn ending(fault: AcceptFault, fail_on_conflict: bool) -> Option<AcceptFault>
    ensures { result ≡ ending fail_on_conflict fault }
{
    match fault {
        AcceptFault::Conflict { .. } if !fail_on_conflict => None,
        fault => Some(fault),
    }
}

/// What is reported of the order at this place, which was refused so.
fn order_fault(order: usize, fault: AcceptFault) -> BatchFault
    ensures { order_fault order (outcome_of (Err fault)) ≡ Some result }
{
    match fault {
        AcceptFault::Conflict { found } => BatchFault::Conflict {
            order,
            actual: found,
        },
        AcceptFault::Partial(field) => BatchFault::Partial { order, field },
        AcceptFault::LogFull => BatchFault::LogFull,
        AcceptFault::Memory => BatchFault::Memory,
    }
}
