ghost use Rattle.std.specs.Prelude.{◌≡◌, ◌≢◌, ◌↔◌, [], false, Some, None, IsSome, IfOk};
ghost use Rattle.sc_model.specs.Replies as replies;
ghost use Rattle.sc_router.specs.Route.{IsBucketCount};
ghost use Rattle.sc_cores.specs.Cores.{outside_of};
ghost use Rattle.sc_seen.specs.Moments.{moment_of};
ghost use Rattle.sc_collection.specs.Desks.{nothing_out, IsDeskAtRest};
ghost use Rattle.sc_collection.specs.Kept.{is_full};
ghost use Rattle.sc_gate.specs.Gates.{no_gate};
ghost use Rattle.sc_session.specs.Connection.{gated_reply, end_after, end_of, last_text};
ghost use Rattle.sc_session.specs.States.{CountsFault};
ghost use Rattle.sc_session.specs.Served.{IsServed};
ghost use Rattle.sc_session.specs.Ends.{last_without_request};
ghost use Rattle.sc_session.specs.Serving.{EndsWriting, Exchanges, Responds, outcome_of};
ghost use Rattle.sc_session.specs.Answering.{answer_of};

use crate::answer::answer;
use crate::end::End;
use crate::fixed;
use crate::passing::pass_from;
use crate::reply::Reply;
use sc_collection::{Desk, Trail};
use sc_gate::{Gate, GateFault, NoGate};
use sc_http::{Incoming, MessageEnd, Reader, write_reply};
use sc_io::{Clock, Hosts, Pace, Sink, Source};
use sc_reply::memory_body;
use std::alloc::{AllocError, Global};
use std::thread::Threads;

/// Serves one connection: reads its requests, answers each over the desk and writes the answers, up to its end. The trail keeps
/// the stops at which it read and wrote. Splits and deletions of shards start and stop cores by the hosts, and a split asks the pace
/// between its steps.
pub fn serve<R: Threads + Sync, D: Desk, C: Clock, H: Hosts, P: Pace, S: Source, W: Sink>(
    rt: &R,
    alloc: Global,
    desk: &mut D,
    clock: &mut C,
    hosts: &mut H,
    pace: &mut P,
    source: &mut S,
    sink: &mut W,
    trail: &mut Trail,
) -> End
    requires trail { trail.old ≡ record { stops = []; requests = 0 } }
    requires nothing_out { D.out desk.old ≡ nothing_out }
    ensures connection { IsServed C.gives (D.layout desk.old)
        (record {
          moment = moment_of (D.seen desk.old) trail.old.stops clock.old;
          outside = outside_of (H.started hosts.old) (H.start_faults hosts.old) (H.stop_faults hosts.old) (P.stops pace.old) (H.reached hosts.old);
          requests = trail.old.requests;
          unread = S.rest source.old;
          written = W.written sink.old;
          read_faults = S.faults source.old;
          write_faults = W.faults sink.old;
          gate = no_gate;
        })
        (record {
          moment = moment_of (D.seen desk.new) trail.new.stops clock.new;
          outside = outside_of (H.started hosts.new) (H.start_faults hosts.new) (H.stop_faults hosts.new) (P.stops pace.new) (H.reached hosts.new);
          requests = trail.new.requests;
          unread = S.rest source.new;
          written = W.written sink.new;
          read_faults = S.faults source.new;
          write_faults = W.faults sink.new;
          gate = no_gate;
        }) result }
    ensures no_log_fault { result ≢ End.LogFault }
    ensures layout { D.layout desk.new ≡ D.layout desk.old }
    ensures nothing_out { D.out desk.new ≡ nothing_out }
{
    serve_with(
        rt,
        alloc,
        desk,
        clock,
        hosts,
        pace,
        source,
        sink,
        trail,
        &mut NoGate,
    )
}

/// Serves one connection as `serve` does, with a gate, which is passed after each request that made an entry and before its reply. Where
/// it can't be passed, the request is answered with 500 or 503 and the connection ends. What the request made stands in the
/// journals then, and may be kept later.
pub fn serve_with<
    R: Threads + Sync,
    D: Desk,
    C: Clock,
    H: Hosts,
    P: Pace,
    S: Source,
    W: Sink,
    G: Gate<D>,
>(
    rt: &R,
    alloc: Global,
    desk: &mut D,
    clock: &mut C,
    hosts: &mut H,
    pace: &mut P,
    source: &mut S,
    sink: &mut W,
    trail: &mut Trail,
    gate: &mut G,
) -> End
    requires trail { trail.old ≡ record { stops = []; requests = 0 } }
    requires nothing_out { D.out desk.old ≡ nothing_out }
    requires fits { G.fits gate.old desk.old }
    ensures connection { IsServed C.gives (D.layout desk.old)
        (record {
          moment = moment_of (D.seen desk.old) trail.old.stops clock.old;
          outside = outside_of (H.started hosts.old) (H.start_faults hosts.old) (H.stop_faults hosts.old) (P.stops pace.old) (H.reached hosts.old);
          requests = trail.old.requests;
          unread = S.rest source.old;
          written = W.written sink.old;
          read_faults = S.faults source.old;
          write_faults = W.faults sink.old;
          gate = G.state gate.old;
        })
        (record {
          moment = moment_of (D.seen desk.new) trail.new.stops clock.new;
          outside = outside_of (H.started hosts.new) (H.start_faults hosts.new) (H.stop_faults hosts.new) (P.stops pace.new) (H.reached hosts.new);
          requests = trail.new.requests;
          unread = S.rest source.new;
          written = W.written sink.new;
          read_faults = S.faults source.new;
          write_faults = W.faults sink.new;
          gate = G.state gate.new;
        }) result }
    ensures layout { D.layout desk.new ≡ D.layout desk.old }
    ensures nothing_out { D.out desk.new ≡ nothing_out }
    ensures fits { G.fits gate.new desk.new }
    ensures since { G.since gate.old gate.new }
{
    let _ = desk.buckets(); // by it the proof knows how many there may be, and that what was seen is legal
    let mut reader = match Reader::new(alloc) {
        Ok(reader) => reader,
        Err(_) => return end_with(sink, MessageEnd::Memory),
    };
    loop {
        match reader.next_message(alloc, source) {
            Ok(request) => {
                if let Some(end) = exchange(
                    rt, alloc, desk, clock, hosts, pace, sink, trail, gate, request,
                ) {
                    return end;
                }
            }
            Err(end) => return end_with(sink, end),
        }
    }
}

/// Answers one request, and passes the gate before the reply. Reports the connection's end where it ends after the reply.
fn exchange<R: Threads + Sync, D: Desk, C: Clock, H: Hosts, P: Pace, W: Sink, G: Gate<D>>(
    rt: &R,
    alloc: Global,
    desk: &mut D,
    clock: &mut C,
    hosts: &mut H,
    pace: &mut P,
    sink: &mut W,
    trail: &mut Trail,
    gate: &mut G,
    request: Incoming,
) -> Option<End>
    requires rest { IsDeskAtRest (D.layout desk.old) (D.out desk.old) (D.seen desk.old) }
    requires buckets { IsBucketCount (D.layout desk.old).buckets }
    requires open { is_full trail.old ≡ false }
    requires fits { G.fits gate.old desk.old }
    ensures exchange { Exchanges C.gives (D.layout desk.old) request
        (record {
          moment = moment_of (D.seen desk.old) trail.old.stops clock.old;
          outside = outside_of (H.started hosts.old) (H.start_faults hosts.old) (H.stop_faults hosts.old) (P.stops pace.old) (H.reached hosts.old);
          requests = trail.old.requests;
          unread = None;
          written = W.written sink.old;
          read_faults = 0;
          write_faults = W.faults sink.old;
          gate = G.state gate.old;
        })
        (record {
          moment = moment_of (D.seen desk.new) trail.new.stops clock.new;
          outside = outside_of (H.started hosts.new) (H.start_faults hosts.new) (H.stop_faults hosts.new) (P.stops pace.new) (H.reached hosts.new);
          requests = trail.new.requests;
          unread = None;
          written = W.written sink.new;
          read_faults = 0;
          write_faults = W.faults sink.new;
          gate = G.state gate.new;
        }) result }
    ensures rest { IsDeskAtRest (D.layout desk.new) (D.out desk.new) (D.seen desk.new) }
    ensures layout { D.layout desk.new ≡ D.layout desk.old }
    ensures fits { G.fits gate.new desk.new }
    ensures since { G.since gate.old gate.new }
{
    let close = request.close;
    let from = trail.len();
    let answer = answer(rt, alloc, desk, clock, hosts, pace, trail, request);
    let passed = pass_from(alloc, desk, trail, from, gate);
    trail.count_request();
    let end = end_after(&answer, &passed, close, trail.is_full());
    respond_by(sink, &answer, &passed, end)
}

/// How a connection ends after a request that was answered so, if it does, by what came of the gate.
fn end_after(
    answer: &Result<Reply, AllocError>,
    passed: &Result<(), GateFault>,
    close: bool,
    full: bool,
) -> Option<End>
    ensures { result ≡ end_after (answer_of answer.now) (outcome_of passed.now) close full }
{
    match (answer, passed) {
        (Ok(_), Ok(())) if close => Some(End::Closed),
        (Ok(_), Ok(())) if full => Some(End::Limit),
        (Ok(_), Ok(())) => None,
        (Ok(_), Err(GateFault::Failed)) => Some(End::LogFault),
        _ => Some(End::Memory),
    }
}

/// Writes the reply to a request that was answered so, by what came of the gate.
fn respond_by<W: Sink>(
    sink: &mut W,
    answer: &Result<Reply, AllocError>,
    passed: &Result<(), GateFault>,
    end: Option<End>,
) -> Option<End>
    requires status { IfOk answer.now (λ reply. IsSome (replies.reason_of reply.status)) }
    requires no_fault { end ≢ Some End.WriteFault }
    ensures replies { Responds result end (gated_reply (answer_of answer.now) (outcome_of passed.now)) (W.written sink.old) (W.written sink.new) }
    ensures write_faults { CountsFault (result ≡ Some End.WriteFault) (W.faults sink.old) (W.faults sink.new) }
{
    match (answer, passed) {
        (Ok(reply), Ok(())) => respond(sink, reply.status, reply.body.as_str(), end),
        (Ok(_), Err(GateFault::Failed)) => respond(sink, 500, fixed::log_failed_body(), end),
        _ => respond(sink, 503, memory_body(), end),
    }
}

/// Writes a reply, after which the connection ends or stays open. Reports its end where it ends after it.
fn respond<W: Sink>(sink: &mut W, status: u16, body: &str, end: Option<End>) -> Option<End>
    requires status { IsSome (replies.reason_of status) }
    requires no_fault { end ≢ Some End.WriteFault }
    ensures replies { Responds result end (record { status = status; body = body.now }) (W.written sink.old) (W.written sink.new) }
    ensures write_faults { CountsFault (result ≡ Some End.WriteFault) (W.faults sink.old) (W.faults sink.new) }
{
    match write_reply(sink, status, body.as_bytes(), end.is_some()) {
        Ok(()) => end,
        Err(_) => Some(End::WriteFault),
    }
}

/// Ends a connection of which no further request is read, with the reply that says why, where there is one.
fn end_with<W: Sink>(sink: &mut W, end: MessageEnd) -> End
    ensures ends { let last = last_without_request end in
        EndsWriting (Some result) (end_of [] last) (last_text [] last) (W.written sink.old) (W.written sink.new) }
    ensures read_fault { (result ≡ End.ReadFault) ↔ (end ≡ MessageEnd.ReadFault) }
    ensures write_faults { CountsFault (result ≡ End.WriteFault) (W.faults sink.old) (W.faults sink.new) }
{
    match end {
        MessageEnd::Done => End::Done,
        MessageEnd::Cut => End::Cut,
        MessageEnd::ReadFault => End::ReadFault,
        MessageEnd::BadHead => last_reply(sink, 400, fixed::bad_head_body(), End::BadHead),
        MessageEnd::TooLarge => last_reply(sink, 413, fixed::too_large_body(), End::TooLarge),
        MessageEnd::Memory => last_reply(sink, 503, memory_body(), End::Memory),
    }
}

/// Writes the last reply of a connection, which then ends so.
fn last_reply<W: Sink>(sink: &mut W, status: u16, body: &str, end: End) -> End
    requires status { IsSome (replies.reason_of status) }
    requires no_fault { (end ≢ End.WriteFault) × (end ≢ End.ReadFault) }
    ensures ends { Responds (Some result) (Some end) (record { status = status; body = body.now }) (W.written sink.old) (W.written sink.new) }
    ensures read_fault { result ≢ End.ReadFault }
    ensures write_faults { CountsFault (result ≡ End.WriteFault) (W.faults sink.old) (W.faults sink.new) }
{
    match write_reply(sink, status, body.as_bytes(), true) {
        Ok(()) => end,
        Err(_) => End::WriteFault,
    }
}
