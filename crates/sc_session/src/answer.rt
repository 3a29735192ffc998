ghost use Rattle.std.specs.Prelude.{◌≡◌, ◌+◌, ◌*◌, ◌<◌, ◌≤◌, ◌^◌, length, IsSome, IfSome, IfOk};
ghost use Rattle.std.specs.Option.{option_map};
ghost use Rattle.std.specs.Arc.{arc_value};
ghost use Rattle.sc_router.specs.Route.{IsBucketCount};
ghost use Rattle.sc_model.specs.Replies as replies;
ghost use Rattle.sc_reply.specs.Bodies as bodies;
ghost use Rattle.sc_reply.specs.Causes as causes;
ghost use Rattle.sc_collection.specs.Kept.{stops_of_request, trail_room};
ghost use Rattle.sc_collection.specs.Desks.{IsDeskAtRest};
ghost use Rattle.sc_cores.specs.Cores.{outside_of};
ghost use Rattle.sc_seen.specs.Moments.{moment_of};
ghost use Rattle.sc_session.specs.Queries.{IsRouteOf};
ghost use Rattle.sc_session.specs.Asking.{IsWithinLimits, select_of};
ghost use Rattle.sc_session.specs.declared.asked.Asked.TheVariants as asks;
ghost use Rattle.sc_session.specs.Requests as asking;
ghost use Rattle.sc_session.specs.Answering.{AnswersAsked, AnswersOfBuckets, IsOfOrder, RefusesFor, IsReplyTo, RefusesQuery, unread, reply_of, answer_of};

use crate::asked::Asked;
use crate::command::{delete_reply, split_reply, status};
use crate::query::criterion;
use crate::reply::Reply;
use crate::select::Select;
use sc_admin::{Admin, delete};
use sc_collection::{Desk, Trail};
use sc_commands::Batch;
use sc_eval::BindFault;
use sc_fanout::{Ask, search};
use sc_get::{get_many, get_one};
use sc_hash::Range;
use sc_http::Incoming;
use sc_io::{Clock, Hosts, Pace};
use sc_record::{Cell, Id, List, Text};
use sc_reply::{Cause, get_body, ids_body, ok_body, select_body, update_body};
use sc_router::key_range;
use sc_split::split;
use sc_update::{BatchEnd, BatchFault, update};
use std::alloc::{AllocError, Global};
use std::thread::Threads;

/// The reply to a request, with what it leaves of the desk, of the clock and of the hosts. Its stops are kept. A search waits for the
/// threads of its parts.
pub(crate) fn answer<R: Threads + Sync, D: Desk, C: Clock, H: Hosts, P: Pace>(
    rt: &R,
    alloc: Global,
    desk: &mut D,
    clock: &mut C,
    hosts: &mut H,
    pace: &mut P,
    trail: &mut Trail,
    request: Incoming,
) -> Result<Reply, AllocError>
    requires rest { IsDeskAtRest (D.layout desk.old) (D.out desk.old) (D.seen desk.old) }
    requires buckets { IsBucketCount (D.layout desk.old).buckets }
    requires room { length trail.old.stops + stops_of_request ≤ trail_room }
    ensures answers { AnswersAsked C.gives (D.layout desk.old) (asking.asked request)
        (record {
          moment = moment_of (D.seen desk.old) trail.old.stops clock.old;
          outside = outside_of (H.started hosts.old) (H.start_faults hosts.old) (H.stop_faults hosts.old) (P.stops pace.old) (H.reached hosts.old);
        })
        (record {
          moment = moment_of (D.seen desk.new) trail.new.stops clock.new;
          outside = outside_of (H.started hosts.new) (H.start_faults hosts.new) (H.stop_faults hosts.new) (P.stops pace.new) (H.reached hosts.new);
        }) (answer_of result) }
    ensures status { IfOk result (λ reply. IsSome (replies.reason_of reply.status)) }
    ensures rest { IsDeskAtRest (D.layout desk.new) (D.out desk.new) (D.seen desk.new) }
    ensures layout { D.layout desk.new ≡ D.layout desk.old }
    ensures requests { trail.new.requests ≡ trail.old.requests }
{
    match Asked::of(alloc, request)? {
        Asked::Refused(refused) => Reply::refusal(alloc, &refused.cause()),
        Asked::Get(id) => get(alloc, desk, trail, &id),
        Asked::GetIds(ids) => get_ids(alloc, desk, trail, &ids),
        Asked::Select(asked) => select(rt, alloc, desk, trail, &asked),
        Asked::Update(batch) => {
            let end = update(alloc, desk, clock, hosts, trail, &batch);
            update_reply(alloc, &batch, &end)
        }
        Asked::Command(Admin::Status) => status(alloc, desk, trail),
        Asked::Command(Admin::Split { shard, cut }) => {
            let end = split(alloc, desk, hosts, pace, trail, shard.as_str(), &cut);
            split_reply(alloc, &end)
        }
        Asked::Command(Admin::Delete { shard }) => {
            let end = delete(alloc, desk, hosts, trail, shard.as_str());
            delete_reply(alloc, &end)
        }
    }
}

/// The document of an id, by its last write. It is printed once the bucket was given back.
fn get<D: Desk>(
    alloc: Global,
    desk: &mut D,
    trail: &mut Trail,
    id: &Id,
) -> Result<Reply, AllocError>
    requires rest { IsDeskAtRest (D.layout desk.old) (D.out desk.old) (D.seen desk.old) }
    requires room { length trail.old.stops + stops_of_request ≤ trail_room }
    ensures answers { AnswersOfBuckets unread (D.layout desk.old) (asking.get id.now)
        (moment_of (D.seen desk.old) trail.old.stops tt) (moment_of (D.seen desk.new) trail.new.stops tt) (answer_of result) }
    ensures status { IfOk result (λ reply. IsSome (replies.reason_of reply.status)) }
    ensures rest { IsDeskAtRest (D.layout desk.new) (D.out desk.new) (D.seen desk.new) }
    ensures layout { D.layout desk.new ≡ D.layout desk.old }
    ensures requests { trail.new.requests ≡ trail.old.requests }
{
    let found = get_one(desk, trail, id)?;
    get_reply(alloc, &found)
}

/// The documents of several ids, by their last writes.
fn get_ids<D: Desk>(
    alloc: Global,
    desk: &mut D,
    trail: &mut Trail,
    ids: &List<Id>,
) -> Result<Reply, AllocError>
    requires rest { IsDeskAtRest (D.layout desk.old) (D.out desk.old) (D.seen desk.old) }
    requires room { length trail.old.stops + stops_of_request ≤ trail_room }
    requires within { IsWithinLimits (asks.GetIds ids.now) }
    ensures answers { AnswersOfBuckets unread (D.layout desk.old) (asking.get_ids ids.now)
        (moment_of (D.seen desk.old) trail.old.stops tt) (moment_of (D.seen desk.new) trail.new.stops tt) (answer_of result) }
    ensures status { IfOk result (λ reply. IsSome (replies.reason_of reply.status)) }
    ensures rest { IsDeskAtRest (D.layout desk.new) (D.out desk.new) (D.seen desk.new) }
    ensures layout { D.layout desk.new ≡ D.layout desk.old }
    ensures requests { trail.new.requests ≡ trail.old.requests }
{
    let found = get_many(alloc, desk, trail, ids)?;
    Ok(Reply::made(200, ids_body(alloc, &found)?))
}

/// A page of what a search finds.
fn select<R: Threads + Sync, D: Desk>(
    rt: &R,
    alloc: Global,
    desk: &mut D,
    trail: &mut Trail,
    asked: &Select,
) -> Result<Reply, AllocError>
    requires rest { IsDeskAtRest (D.layout desk.old) (D.out desk.old) (D.seen desk.old) }
    requires buckets { IsBucketCount (D.layout desk.old).buckets }
    requires room { length trail.old.stops + stops_of_request ≤ trail_room }
    requires within { IsWithinLimits (asks.Select asked.now) }
    ensures answers { AnswersOfBuckets unread (D.layout desk.old) (asking.select (select_of asked.now))
        (moment_of (D.seen desk.old) trail.old.stops tt) (moment_of (D.seen desk.new) trail.new.stops tt) (answer_of result) }
    ensures status { IfOk result (λ reply. IsSome (replies.reason_of reply.status)) }
    ensures rest { IsDeskAtRest (D.layout desk.new) (D.out desk.new) (D.seen desk.new) }
    ensures layout { D.layout desk.new ≡ D.layout desk.old }
    ensures requests { trail.new.requests ≡ trail.old.requests }
{
    let query = match criterion(alloc, asked.queries.as_slice()) {
        Ok(query) => query,
        Err(fault) => return query_refusal(alloc, fault),
    };
    let ask = Ask {
        query,
        route: range_of(&asked.route),
        start: asked.start,
        rows: asked.rows,
    };
    let page = search(rt, alloc, desk, trail, &ask)?;
    Ok(Reply::made(
        200,
        select_body(alloc, page.found, asked.start, &page.docs)?,
    ))
}

/// The hashes of a route, where there is one.
fn range_of(route: &Option<Text>) -> Option<Range>
    requires { IfSome route.now (λ route. length route < 2 ^ 32) }
    ensures { IsRouteOf route.now result }
{
    match route {
        Some(route) => Some(key_range(route.as_str())),
        None => None,
    }
}

/// The reply to a query that is at fault.
fn query_refusal(alloc: Global, fault: BindFault) -> Result<Reply, AllocError>
    ensures reply { RefusesQuery fault (answer_of result) }
    ensures status { IfOk result (λ reply. IsSome (replies.reason_of reply.status)) }
{
    match fault {
        BindFault::At { at } => Reply::refusal(alloc, &Cause::BadQuery { at }),
        BindFault::Memory => Err(AllocError),
    }
}

/// The reply to a get that found this.
fn get_reply(alloc: Global, found: &Option<Cell>) -> Result<Reply, AllocError>
    requires { bodies.IsLiveOrNone (option_map arc_value found.now) }
    ensures reply { IfOk result (λ reply. reply_of reply ≡ record { status = 200; body = bodies.get_text (option_map arc_value found.now) }) }
    ensures status { IfOk result (λ reply. IsSome (replies.reason_of reply.status)) }
{
    Ok(Reply::made(200, get_body(alloc, found.as_ref())?))
}

/// The reply to what an update reports.
fn update_reply(alloc: Global, batch: &Batch, end: &BatchEnd) -> Result<Reply, AllocError>
    requires { IfSome end.now.fault (IsOfOrder batch.now) }
    ensures reply { IfOk result (IsReplyTo batch.now end.now) }
    ensures status { IfOk result (λ reply. IsSome (replies.reason_of reply.status)) }
{
    let versions = batch.flags.versions;
    match &end.fault {
        None if !versions => Ok(Reply::fixed(200, ok_body())),
        None => Ok(Reply::made(200, update_body(alloc, &end.adds, &end.deletes, versions)?)),
        Some(BatchFault::Memory) => Err(AllocError),
        Some(fault) => Reply::refused(
            alloc,
            &cause_of(batch, fault),
            &end.adds,
            &end.deletes,
            versions,
        ),
    }
}

/// Why a batch is refused that reports this fault.
fn cause_of<'a>(batch: &'a Batch, fault: &'a BatchFault) -> Cause<'a>
    requires { IsOfOrder batch.now fault.now }
    ensures { RefusesFor batch.now fault.now (causes.refusal_of result) }
{
    match fault {
        BatchFault::Conflict { order, actual } => {
            let order = &batch.orders.as_slice()[*order];
            Cause::Conflict {
                id: order.id.as_str(),
                expected: order.condition,
                actual: *actual,
            }
        }
        BatchFault::Partial { field, .. } => Cause::Partial {
            name: field.as_str(),
        },
        BatchFault::LogFull => Cause::LogFull,
        BatchFault::Memory => Cause::Memory,
    }
}
