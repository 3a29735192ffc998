ghost use Rattle.std.specs.Prelude.{◌≡◌, ◌≤◌};
ghost use Rattle.sc_cores.specs.Cores.{outside_of};
ghost use Rattle.sc_collection.specs.Desks.{nothing_out};
ghost use Rattle.sc_gate.specs.Gates.{no_gate};
ghost use Rattle.sc_session.specs.Listening.{nothing_kept};
ghost use Rattle.sc_session.specs.Working.{IsWorked};

use crate::connection::serve_with;
use crate::listener::Listener;
use sc_collection::{Desk, Trail};
use sc_gate::{Gate, NoGate};
use sc_io::{Clock, Failed, Hosts, Pace};
use std::alloc::Global;
use std::thread::Threads;

/// How a worker ended.
#[derive(Clone, Copy, Debug, PartialEq, Eq)]
pub enum WorkEnd {
    /// It has served as many links as it was to serve.
    Enough,
    /// No link will come any more.
    NoMore,
    /// The listener failed.
    ListenerFault,
}

/// One worker: it accepts a link, serves it as one connection, closes it with its trail, and begins again, until it was given `most`
/// links. How a connection ends doesn't end the worker.
pub fn work<R: Threads + Sync, D: Desk, C: Clock, H: Hosts, P: Pace, L: Listener>(
    rt: &R,
    alloc: Global,
    desk: &mut D,
    clock: &mut C,
    hosts: &mut H,
    pace: &mut P,
    listener: &mut L,
    trail: &mut Trail,
    most: u32,
) -> WorkEnd
    requires most { 1 ≤ most }
    requires nothing_out { D.out desk.old ≡ nothing_out }
    ensures worked { IsWorked C.gives
        (record {
          layout = D.layout desk.old;
          rest = L.S.rest;
          read_faults = L.S.faults;
          written = L.W.written;
          write_faults = L.W.faults;
        })
        most
        (record {
          around = record {
            seen = D.seen desk.old;
            clock = clock.old;
            outside = outside_of (H.started hosts.old) (H.start_faults hosts.old) (H.stop_faults hosts.old) (P.stops pace.old) (H.reached hosts.old);
            gate = no_gate;
          };
          coming = L.coming listener.old;
          taken = L.taken listener.old;
          faults = L.faults listener.old;
          out = L.out listener.old;
        })
        (record {
          around = record {
            seen = D.seen desk.new;
            clock = clock.new;
            outside = outside_of (H.started hosts.new) (H.start_faults hosts.new) (H.stop_faults hosts.new) (P.stops pace.new) (H.reached hosts.new);
            gate = no_gate;
          };
          coming = L.coming listener.new;
          taken = L.taken listener.new;
          faults = L.faults listener.new;
          out = L.out listener.new;
        })
        result }
    ensures trail { trail.new ≡ nothing_kept }
    ensures layout { D.layout desk.new ≡ D.layout desk.old }
    ensures nothing_out { D.out desk.new ≡ nothing_out }
{
    work_with(
        rt,
        alloc,
        desk,
        clock,
        hosts,
        pace,
        listener,
        trail,
        most,
        &mut NoGate,
    )
}

/// One worker, as `work`, with a gate that each of its connections passes.
pub fn work_with<R: Threads + Sync, D: Desk, C: Clock, H: Hosts, P: Pace, L: Listener, G: Gate<D>>(
    rt: &R,
    alloc: Global,
    desk: &mut D,
    clock: &mut C,
    hosts: &mut H,
    pace: &mut P,
    listener: &mut L,
    trail: &mut Trail,
    most: u32,
    gate: &mut G,
) -> WorkEnd
    requires most { 1 ≤ most }
    requires nothing_out { D.out desk.old ≡ nothing_out }
    requires fits { G.fits gate.old desk.old }
    ensures worked { IsWorked C.gives
        (record {
          layout = D.layout desk.old;
          rest = L.S.rest;
          read_faults = L.S.faults;
          written = L.W.written;
          write_faults = L.W.faults;
        })
        most
        (record {
          around = record {
            seen = D.seen desk.old;
            clock = clock.old;
            outside = outside_of (H.started hosts.old) (H.start_faults hosts.old) (H.stop_faults hosts.old) (P.stops pace.old) (H.reached hosts.old);
            gate = G.state gate.old;
          };
          coming = L.coming listener.old;
          taken = L.taken listener.old;
          faults = L.faults listener.old;
          out = L.out listener.old;
        })
        (record {
          around = record {
            seen = D.seen desk.new;
            clock = clock.new;
            outside = outside_of (H.started hosts.new) (H.start_faults hosts.new) (H.stop_faults hosts.new) (P.stops pace.new) (H.reached hosts.new);
            gate = G.state gate.new;
          };
          coming = L.coming listener.new;
          taken = L.taken listener.new;
          faults = L.faults listener.new;
          out = L.out listener.new;
        })
        result }
    ensures trail { trail.new ≡ nothing_kept }
    ensures layout { D.layout desk.new ≡ D.layout desk.old }
    ensures nothing_out { D.out desk.new ≡ nothing_out }
    ensures fits { G.fits gate.new desk.new }
    ensures since { G.since gate.old gate.new }
{
    trail.clear();
    for _ in 0..most {
        match serve_next(rt, alloc, desk, clock, hosts, pace, listener, trail, gate) {
            WorkEnd::Enough => {}
            end => return end,
        }
    }
    WorkEnd::Enough
}

/// Serves the next link, if one comes: a worker that is to serve one.
fn serve_next<R: Threads + Sync, D: Desk, C: Clock, H: Hosts, P: Pace, L: Listener, G: Gate<D>>(
    rt: &R,
    alloc: Global,
    desk: &mut D,
    clock: &mut C,
    hosts: &mut H,
    pace: &mut P,
    listener: &mut L,
    trail: &mut Trail,
    gate: &mut G,
) -> WorkEnd
    requires trail { trail.old ≡ nothing_kept }
    requires nothing_out { D.out desk.old ≡ nothing_out }
    requires fits { G.fits gate.old desk.old }
    ensures worked { IsWorked C.gives
        (record {
          layout = D.layout desk.old;
          rest = L.S.rest;
          read_faults = L.S.faults;
          written = L.W.written;
          write_faults = L.W.faults;
        })
        1
        (record {
          around = record {
            seen = D.seen desk.old;
            clock = clock.old;
            outside = outside_of (H.started hosts.old) (H.start_faults hosts.old) (H.stop_faults hosts.old) (P.stops pace.old) (H.reached hosts.old);
            gate = G.state gate.old;
          };
          coming = L.coming listener.old;
          taken = L.taken listener.old;
          faults = L.faults listener.old;
          out = L.out listener.old;
        })
        (record {
          around = record {
            seen = D.seen desk.new;
            clock = clock.new;
            outside = outside_of (H.started hosts.new) (H.start_faults hosts.new) (H.stop_faults hosts.new) (P.stops pace.new) (H.reached hosts.new);
            gate = G.state gate.new;
          };
          coming = L.coming listener.new;
          taken = L.taken listener.new;
          faults = L.faults listener.new;
          out = L.out listener.new;
        })
        result }
    ensures trail { trail.new ≡ nothing_kept }
    ensures layout { D.layout desk.new ≡ D.layout desk.old }
    ensures nothing_out { D.out desk.new ≡ nothing_out }
    ensures fits { G.fits gate.new desk.new }
    ensures since { G.since gate.old gate.new }
{
    match listener.accept() {
        Ok(Some(mut link)) => {
            let _ = serve_with(
                rt,
                alloc,
                desk,
                clock,
                hosts,
                pace,
                &mut link.source,
                &mut link.sink,
                trail,
                gate,
            );
            listener.close(link, trail);
            WorkEnd::Enough
        }
        Ok(None) => WorkEnd::NoMore,
        Err(Failed) => WorkEnd::ListenerFault,
    }
}
