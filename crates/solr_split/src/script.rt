//! A script: one connection over a collection of its own.
ghost use Rattle.std.specs.Prelude.{◌≡◌, ◌≢◌, ◌<◌, ◌↔◌, IfOk, OnOk, OnErr, None};
ghost use Rattle.sc_cores.specs.Cores.{outside_of, cores_of_map};
ghost use Rattle.sc_session.specs.Served.{IsServed};
ghost use Rattle.sc_seen.specs.Seen.{nothing_opened};
ghost use Rattle.sc_collection.specs.Alone.{seen_alone};
ghost use Rattle.sc_collection.specs.Desks.{nothing_out};
ghost use Rattle.sc_collection.specs.Shapes.{IsShape, HasShape, SeesOpened};
ghost use Rattle.solr_split.specs.Running.{RunsOrFails, clock_of, state_of, none_kept, exit_status};

use sc_arguments::Script;
use sc_collection::{Alone, Desk, Shape, Trail};
use sc_cores::{cores_of_map, start_cores};
use sc_io::{Clock, Fixed, Host, Hosts, Pace, Sink, Source};
use sc_record::List;
use sc_session::{End, serve};
use std::alloc::{AllocError, Global};
use std::mem::forget;
use std::thread::Threads;

// What a connection needs.
#[derive(Drop)]
struct Needs {
    /// A collection of the shape in which nothing happened yet.
    desk: Alone,
    /// An empty trail.
    trail: Trail,
    /// The cores of its first map.
    cores: List<Host>,
}

/// Starts the cores of a new collection of the script's shape, and serves one connection over the source, the sink and that collection.
/// Its clock is the one that is handed in or, where the script names a timestamp, one that stands still there. Splits start and stop
/// cores by the hosts, and ask the pace.
///
/// The status is 0 where the connection came to its end, 3 where it ended in a message that can't be read, 4 where the source failed, 5
/// where the sink did, 6 where memory ran out, and 8 where starting a core of the first map failed; those before it stay started.
pub(crate) fn run_script<R: Threads + Sync, S: Source, W: Sink, C: Clock, H: Hosts, P: Pace>(
    rt: &R,
    alloc: Global,
    script: &Script,
    source: &mut S,
    sink: &mut W,
    clock: &mut C,
    hosts: &mut H,
    pace: &mut P,
) -> u8
    requires shape { IsShape script.now.shape }
    ensures script { RunsOrFails script.now C.gives
        (record {
          clock = clock.old;
          outside = outside_of (H.started hosts.old) (H.start_faults hosts.old) (H.stop_faults hosts.old) (P.stops pace.old) (H.reached hosts.old);
          unread = S.rest source.old;
          written = W.written sink.old;
          read_faults = S.faults source.old;
          write_faults = W.faults sink.old;
        })
        (record {
          clock = clock.new;
          outside = outside_of (H.started hosts.new) (H.start_faults hosts.new) (H.stop_faults hosts.new) (P.stops pace.new) (H.reached hosts.new);
          unread = S.rest source.new;
          written = W.written sink.new;
          read_faults = S.faults source.new;
          write_faults = W.faults sink.new;
        })
        (record {
          hosts = hosts.new ≡ hosts.old;
          others = ((source.new ≡ source.old) × (sink.new ≡ sink.old)) × (clock.new ≡ clock.old) × (pace.new ≡ pace.old);
        })
        result }
    ensures status { result ≢ 2 }
    ensures read_fault { (result ≡ 4) ↔ (S.faults source.old < S.faults source.new) }
    ensures write_fault { (result ≡ 5) ↔ (W.faults sink.old < W.faults sink.new) }
    ensures host_fault { result ≡ 8 → H.start_faults hosts.old < H.start_faults hosts.new }
{
    let Needs {
        mut desk,
        mut trail,
        cores,
    } = match needs_of(alloc, &script.shape) {
        Ok(needs) => needs,
        Err(_) => return 6,
    };
    if start_cores(hosts, cores.as_slice()).is_err() {
        return 8;
    }
    let end = serve_script(
        rt,
        alloc,
        script.clock,
        &mut desk,
        source,
        sink,
        clock,
        hosts,
        pace,
        &mut trail,
    );
    // The program ends here: the system takes their memory at once, which is faster than taking them apart piece by piece.
    desk.leave();
    forget(trail);
    status_of(end)
}

/// Serves one connection over a desk, with the clock that is handed in or with one that stands still at a timestamp.
fn serve_script<R: Threads + Sync, D: Desk, S: Source, W: Sink, C: Clock, H: Hosts, P: Pace>(
    rt: &R,
    alloc: Global,
    timestamp: Option<u64>,
    desk: &mut D,
    source: &mut S,
    sink: &mut W,
    clock: &mut C,
    hosts: &mut H,
    pace: &mut P,
    trail: &mut Trail,
) -> End
    requires trail { trail.old ≡ none_kept }
    requires nothing_out { D.out desk.old ≡ nothing_out }
    ensures served { IsServed (clock_of timestamp C.gives) (D.layout desk.old)
        (state_of (D.seen desk.old) trail.old (record {
          clock = clock.old;
          outside = outside_of (H.started hosts.old) (H.start_faults hosts.old) (H.stop_faults hosts.old) (P.stops pace.old) (H.reached hosts.old);
          unread = S.rest source.old;
          written = W.written sink.old;
          read_faults = S.faults source.old;
          write_faults = W.faults sink.old;
        }))
        (state_of (D.seen desk.new) trail.new (record {
          clock = clock.new;
          outside = outside_of (H.started hosts.new) (H.start_faults hosts.new) (H.stop_faults hosts.new) (P.stops pace.new) (H.reached hosts.new);
          unread = S.rest source.new;
          written = W.written sink.new;
          read_faults = S.faults source.new;
          write_faults = W.faults sink.new;
        })) result }
    ensures layout { D.layout desk.new ≡ D.layout desk.old }
    ensures nothing_out { D.out desk.new ≡ nothing_out }
{
    match timestamp {
        None => serve(rt, alloc, desk, clock, hosts, pace, source, sink, trail),
        Some(moment) => serve(
            rt,
            alloc,
            desk,
            &mut Fixed { moment },
            hosts,
            pace,
            source,
            sink,
            trail,
        ),
    }
}

/// What a connection over a new collection of the shape needs.
fn needs_of(alloc: Global, shape: &Shape) -> Result<Needs, AllocError>
    requires shape { IsShape shape.now }
    ensures layout { IfOk result (λ needs. HasShape shape.now needs.desk.layout) }
    ensures opened { IfOk result (λ needs. needs.desk.layout.opened ≡ nothing_opened) }
    ensures seen { IfOk result (λ needs. SeesOpened needs.desk.layout.opened (seen_alone needs.desk)) }
    ensures out { IfOk result (λ needs. needs.desk.out ≡ None) }
    ensures board_out { IfOk result (λ needs. needs.desk.board_out ≡ None) }
    ensures trail { IfOk result (λ needs. needs.trail ≡ none_kept) }
    ensures cores { IfOk result (λ needs. needs.cores ≡ cores_of_map needs.desk.layout.nodes needs.desk.layout.first) }
{
    let desk = Alone::new(alloc, shape)?;
    let cores = cores_of_map(alloc, desk.nodes(), desk.first())?;
    Ok(Needs {
        desk,
        trail: Trail::new(alloc)?,
        cores,
    })
}

/// The exit status by how the connection ended.
fn status_of(end: End) -> u8
    ensures exit { result ≡ exit_status end }
    ensures status { result ≢ 2 }
{
    match end {
        End::Done | End::Closed | End::Limit => 0,
        End::Cut | End::BadHead | End::TooLarge => 3,
        End::ReadFault => 4,
        End::WriteFault => 5,
        End::Memory => 6,
        End::LogFault => 10,
    }
}
