//! All that the program does, by what its arguments ask for.
ghost use Rattle.std.specs.Prelude.{◌≡◌, ◌≢◌, ◌<◌, ◌↔◌, map, string_bytes};
ghost use Rattle.sc_collection.specs.Shapes.{IsShape};
ghost use Rattle.sc_arguments.specs.Arguments.{IsServer, IsDemo};
ghost use Rattle.sc_server.specs.Reports.{reports_of};
ghost use Rattle.sc_server.specs.Serving.{EndsServer, front_of};
ghost use Rattle.sc_demo.specs.Making.{maker_reports};
ghost use Rattle.sc_demo.specs.Demos.{EndsDemo};
ghost use Rattle.solr_split.specs.Scripts.{EndsScript, beside_of, crew_reports};
ghost use Rattle.solr_split.specs.Runs.{EndsRun};

use crate::script::run_script;
use sc_arguments::{Asked, Demo, Script, Server, asked_of};
use sc_demo::run_demo;
use sc_io::{Sink, Source};
use sc_server::run_server;
use sc_session::Station;
use std::alloc::Global;
use std::sync::Wait;
use std::thread::Threads;

/// All that the program does. `script` serves one connection over the source and the sink, by crew 0 of the station. `serve` opens a port,
/// writes `listening <port>` to the sink, and serves connections by several workers at once, each by a crew of its own. `demo` makes a
/// workload by several workers while `shard1` is split beside them, and writes six lines on what came of it. Each gives every crew back to
/// the station. With `--clock` the clock stands still at that many milliseconds.
///
/// The status is 2 for arguments that ask for nothing, 6 where memory ran out, and 8 where starting a core of the first map failed. Of
/// `script` it is 0 where the connection came to its end, 3 where it ended in a message that can't be read, 4 where the source failed and
/// 5 where the sink did; of `serve` 0 where each worker ended without a fault of its listener, 5 where the line wasn't written, and 7
/// where the port wasn't opened or a listener failed; of `demo` 0 where its lines were written, and 5 where that failed.
///
/// It waits for its workers, and where it searches for the threads that look at parts of it, so it owes no return; a script waits for
/// nothing else.
pub fn run<S: Source, W: Sink, T: Station, R: Threads + Wait + Sync>(
    rt: &R,
    alloc: Global,
    arguments: &[String],
    source: &mut S,
    sink: &mut W,
    station: &mut T,
) -> u8
    ensures { EndsRun
        (reports_of T.C.Clock T.H.Hosts T.P.Pace T.L.Listener T.L.S.Source T.L.W.Sink)
        (map string_bytes arguments.now)
        (beside_of T.Station S.Source W.Sink station.old source.old sink.old)
        (beside_of T.Station S.Source W.Sink station.new source.new sink.new)
        (record {
          source = source.new ≡ source.old;
          sink = sink.new ≡ sink.old;
          station = station.new ≡ station.old;
        })
        result }
{
    let Ok(asked) = asked_of(alloc, arguments) else {
        return 6;
    };
    match asked {
        None => 2,
        Some(Asked::Script(script)) => run_by_crew(rt, alloc, &script, source, sink, station),
        Some(Asked::Serve(server)) => run_workers(rt, alloc, &server, sink, station),
        Some(Asked::Demo(demo)) => run_makers(rt, alloc, &demo, sink, station),
    }
}

/// Runs a script by crew 0 of the station, and gives the crew back.
fn run_by_crew<S: Source, W: Sink, T: Station, R: Threads + Sync>(
    rt: &R,
    alloc: Global,
    script: &Script,
    source: &mut S,
    sink: &mut W,
    station: &mut T,
) -> u8
    requires shape { IsShape script.now.shape }
    ensures script { EndsScript script.now
        (crew_reports T.C.Clock T.H.Hosts T.P.Pace)
        (beside_of T.Station S.Source W.Sink station.old source.old sink.old)
        (beside_of T.Station S.Source W.Sink station.new source.new sink.new)
        ((source.new ≡ source.old) × (sink.new ≡ sink.old)) result }
    ensures status { result ≢ 2 }
    ensures read_fault { (result ≡ 4) ↔ (S.faults source.old < S.faults source.new) }
    ensures write_fault { (result ≡ 5) ↔ (W.faults sink.old < W.faults sink.new) }
{
    let Ok(mut crew) = station.crew(alloc, 0) else {
        return 6;
    };
    let status = run_script(
        rt,
        alloc,
        script,
        source,
        sink,
        &mut crew.clock,
        &mut crew.hosts,
        &mut crew.pace,
    );
    station.back(0, crew);
    status
}

/// Serves the connections to a port.
fn run_workers<W: Sink, T: Station, R: Threads + Wait + Sync>(
    rt: &R,
    alloc: Global,
    server: &Server,
    sink: &mut W,
    station: &mut T,
) -> u8
    requires server { IsServer server.now }
    ensures ends { EndsServer
        (reports_of T.C.Clock T.H.Hosts T.P.Pace T.L.Listener T.L.S.Source T.L.W.Sink)
        server.now
        (front_of T.Station W.Sink station.old sink.old)
        (front_of T.Station W.Sink station.new sink.new)
        result }
    ensures status { (result ≢ 2) × (result ≢ 4) }
    ensures write_fault { (result ≡ 5) ↔ (W.faults sink.old < W.faults sink.new) }
{
    run_server(rt, alloc, server, sink, station)
}

/// Makes a workload beside a split, and tells what came of it.
fn run_makers<W: Sink, T: Station, R: Threads + Wait + Sync>(
    rt: &R,
    alloc: Global,
    demo: &Demo,
    sink: &mut W,
    station: &mut T,
) -> u8
    requires demo { IsDemo demo.now }
    ensures ends { EndsDemo
        (maker_reports T.C.Clock T.H.Hosts T.P.Pace)
        demo.now
        (front_of T.Station W.Sink station.old sink.old)
        (front_of T.Station W.Sink station.new sink.new)
        result }
    ensures status { (result ≢ 2) × (result ≢ 4) }
    ensures write_fault { (result ≡ 5) ↔ (W.faults sink.old < W.faults sink.new) }
{
    run_demo(rt, alloc, demo, sink, station)
}
