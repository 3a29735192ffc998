//! All workers, from the port to the status.
ghost use Rattle.std.specs.Prelude.{◌≡◌, ◌≤◌, ◌<◌, ◌^◌, ℕ, true, [], length, map, All, IfSome, OnOk, vec_len, vec_capacity};
ghost use Rattle.std.specs.List.{list_any};
ghost use Rattle.sc_arguments.specs.Arguments.{IsServer};
ghost use Rattle.sc_shared.specs.Passes.{seen_of};
ghost use Rattle.sc_shared.specs.Collections.{Locks, layout_of, SeesBoth};
ghost use Rattle.sc_shared.specs.Sharing.{ArePasses};
ghost use Rattle.sc_server.specs.Working.{IsReady, IsReadyToWork, ended_by_fault, HasWorked, HaveWorked, ServesAll, serving};
ghost use Rattle.sc_server.specs.Needs.{IsKit};
ghost use Rattle.sc_server.specs.Crews.{HaveCrews, HaveGivenBack, seen_with, seen_by_worker, station_state};
ghost use Rattle.sc_server.specs.Reports.{reports_of};
ghost use Rattle.sc_server.specs.Serving.{IsOneStory, EndsServer, front_of};

use crate::clock::WorkerClock;
use crate::needs::{Kit, Needs, needs_of};
use crate::worker::Worker;
use sc_arguments::Server;
use sc_cores::start_cores;
use sc_io::{Clock, Host, Hosts, Pace, Sink};
use sc_session::{Crew, Listener, Station};
use sc_shared::{Collection, Passes};
use std::alloc::{AllocError, Global};
use std::marker::Send;
use std::sync::Wait;
use std::thread;
use std::thread::Threads;

/// Serves connections on several threads. In this order: the collection and what the workers need are made (6 where memory runs out), the
/// port is opened (7 where that fails), each worker gets a crew (6), the first cores are started by the hosts of crew 0 (8 where one
/// fails), the line `listening <port>` is written (5 where that fails), and the workers run. The status is then 7 where a listener failed,
/// and else 0. Each crew that was made is given back.
pub fn run_server<R: Threads + Wait + Sync, W: Sink, T: Station>(
    rt: &R,
    alloc: Global,
    server: &Server,
    sink: &mut W,
    station: &mut T,
) -> u8
    requires server { IsServer server.now }
    ensures ends { EndsServer
        (reports_of T.C.Clock T.H.Hosts T.P.Pace T.L.Listener T.L.S.Source T.L.W.Sink)
        server.now
        (front_of T.Station W.Sink station.old sink.old)
        (front_of T.Station W.Sink station.new sink.new)
        result }
{
    let Needs {
        collection,
        mut passes,
        cores,
        kits,
        line,
    } = match needs_of(alloc, server) {
        Ok(needs) => needs,
        Err(_) => return 6,
    };
    if station.open(server.port).is_err() {
        return 7;
    }
    let Ok(mut workers) = Vec::with_capacity(alloc, kits.len()) else {
        return 6;
    };
    let status = match enlist(rt, alloc, server, &collection, kits, station, &mut workers) {
        Ok(()) => serve_all(
            rt,
            workers.as_mut_slice(),
            cores.as_slice(),
            sink,
            line.as_bytes(),
        ),
        Err(_) => 6,
    };
    dismiss(&collection, &mut passes, station, workers);
    status
}

/// Gives each worker a crew of the station, by its number. Where memory runs out, those before it are there.
fn enlist<'a, R, T: Station>(
    rt: &'a R,
    alloc: Global,
    server: &Server,
    collection: &'a Collection,
    kits: Vec<Kit>,
    station: &mut T,
    workers: &mut Vec<Worker<'a, R, T::C, T::H, T::P, T::L>>,
) -> Result<(), AllocError>
    requires kits { All (IsKit collection.now) kits.items }
    requires few { length kits.items < 2 ^ 32 }
    requires none { workers.old.items ≡ [] }
    requires room { vec_len kits ≤ vec_capacity workers.old }
    ensures all { OnOk result (length workers.new.items ≡ length kits.items) }
    ensures at_most { length workers.new.items ≤ length kits.items }
    ensures have { HaveCrews server.now collection.now workers.new.items
        (station_state T.Station station.old)
        (station_state T.Station station.new) }
{
    for kit in kits {
        let Crew {
            clock,
            hosts,
            pace,
            listener,
        } = station.crew(alloc, workers.len() as u32)?;
        let Kit { passes, trail } = kit;
        workers.push_reserved(Worker {
            rt,
            alloc,
            collection,
            passes: Some(passes),
            trail,
            crew: Crew {
                clock: WorkerClock {
                    clock,
                    moment: server.clock,
                },
                hosts,
                pace,
                listener,
            },
            most: server.max_connections,
            end: None,
        });
    }
    Ok(())
}

/// Starts the first cores, says that the server listens, and has all workers work.
fn serve_all<
    'a,
    R: Threads + Wait + Sync,
    C: Clock + Send,
    H: Hosts + Send,
    P: Pace + Send,
    L: Listener + Send,
    W: Sink,
>(
    rt: &R,
    workers: &mut [Worker<'a, R, C, H, P, L>],
    cores: &[Host],
    sink: &mut W,
    line: &[u8],
) -> u8
    requires ready { All IsReadyToWork workers.old }
    requires some { 1 ≤ length workers.old }
    ensures ends { ServesAll
        (reports_of C.Clock H.Hosts P.Pace L.Listener L.S.Source L.W.Sink)
        cores.now line.now
        (serving workers.old (record { written = W.written sink.old; faults = W.faults sink.old }))
        (serving workers.new (record { written = W.written sink.new; faults = W.faults sink.new }))
        result }
    ensures ready { (collection : Locks) → All (IsReady collection) workers.old → All (IsReady collection) workers.new }
    ensures count { length workers.new ≡ length workers.old }
{
    if start_cores(&mut workers[0].crew.hosts, cores).is_err() {
        return 8;
    }
    if sink.write(line).is_err() {
        return 5;
    }
    work_all(rt, workers);
    if any_failed(workers) { 7 } else { 0 }
}

/// Has all workers work, each in a thread of its own.
fn work_all<
    'a,
    R: Threads + Wait + Sync,
    C: Clock + Send,
    H: Hosts + Send,
    P: Pace + Send,
    L: Listener + Send,
>(rt: &R, workers: &mut [Worker<'a, R, C, H, P, L>])
    requires ready { All IsReadyToWork workers.old }
    requires some { 1 ≤ length workers.old }
    ensures worked { HaveWorked
        (reports_of C.Clock H.Hosts P.Pace L.Listener L.S.Source L.W.Sink)
        workers.old workers.new }
    ensures ready { (collection : Locks) → All (IsReady collection) workers.old → All (IsReady collection) workers.new }
    ensures count { length workers.new ≡ length workers.old }
{
    let count = workers.len();
    thread::for_each_mut(
        rt,
        workers,
        count,
        &|_, worker: &mut Worker<R, C, H, P, L>|
            requires { IsReadyToWork worker.old }
            ensures { IsReady worker.old.collection.now worker.new × HasWorked
                (reports_of C.Clock H.Hosts P.Pace L.Listener L.S.Source L.W.Sink)
                worker.old worker.new }
        { worker.run() },
    );
}

/// The listener of one of the workers failed.
fn any_failed<'a, R, C, H, P, L>(workers: &[Worker<'a, R, C, H, P, L>]) -> bool
    ensures { result ≡ list_any (λ worker. ended_by_fault worker.end) workers.now }
{
    workers.iter().any(|worker| worker.has_failed())
}

/// Gives the crew of each worker back to the station, and joins its passes with those off which they were split.
fn dismiss<'a, R, T: Station>(
    collection: &Collection,
    passes: &mut Passes,
    station: &mut T,
    mut workers: Vec<Worker<'a, R, T::C, T::H, T::P, T::L>>,
)
    requires few { length workers.items < 2 ^ 32 }
    requires passes { ArePasses collection.now passes.old }
    requires workers { All (IsReady collection.now) workers.items }
    requires out { (number : ℕ) → number < length workers.items → T.out station.old number ≡ true }
    ensures story { IsOneStory (layout_of collection.now) (map seen_by_worker workers.entry.items) (seen_of passes.new) }
    ensures back { HaveGivenBack workers.entry.items
        (station_state T.Station station.old)
        (station_state T.Station station.new) }
{
    while let Some(worker) = workers.pop() {
        let Worker {
            rt: _,
            alloc: _,
            collection: _,
            passes: worked,
            trail: _,
            crew,
            most: _,
            end: _,
        } = worker;
        join_worked(collection, passes, worked);
        let Crew {
            clock,
            hosts,
            pace,
            listener,
        } = crew;
        station.back(
            workers.len() as u32,
            Crew {
                clock: clock.clock,
                hosts,
                pace,
                listener,
            },
        );
    }
    // A worker can't be let go of, so a list of them can't either, until it is empty.
    workers.destroy_empty();
}

/// Joins the passes of a worker, if it has any, with those off which they were split.
fn join_worked(collection: &Collection, passes: &mut Passes, worked: Option<Passes>)
    requires into { ArePasses collection.now passes.old }
    requires from { IfSome worked (ArePasses collection.now) }
    ensures passes { ArePasses collection.now passes.new }
    ensures joined { SeesBoth (seen_of passes.old) (seen_with worked) (seen_of passes.new) }
{
    if let Some(worked) = worked {
        collection.join_passes(passes, worked);
    }
}
