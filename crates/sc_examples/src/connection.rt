ghost use Rattle.std.specs.Prelude.{◌≡◌, None, true, IfOk};
ghost use Rattle.sc_collection.specs.Shapes.{IsShape, is_bucket_count};

use crate::line::{Line, joined};
use crate::wire::Wire;
use crate::words::{log_limit, number};
use sc_collection::{Alone, Desk, Shape, Stop, Trail};
use sc_cores::{cores_of_map, start_cores};
use sc_io::{Fixed, MemHosts, MemPace, MemSink, MemSource};
use sc_record::List;
use sc_session::{End, serve};
use std::alloc::{AllocError, Global};
use std::thread::Threads;

/// A collection, with the hosts that have its cores, the pace that its splits ask, and the wire of its connections.
#[derive(Drop)]
pub struct Collection {
    pub desk: Alone,
    pub hosts: MemHosts,
    pub pace: MemPace,
    pub wire: Wire,
}

/// A new collection, by the line `collection SHARDS REPLICAS BUCKETS LIMIT`, on two nodes. Its cores are started, and from here on no call
/// of its hosts fails, its pace says no stop, and its wire is as a new one.
pub fn new_collection(alloc: Global, words: &[&str]) -> Result<Collection, AllocError>
    ensures out { IfOk result (λ collection. collection.desk.out ≡ None) }
    ensures board_out { IfOk result (λ collection. collection.desk.board_out ≡ None) }
{
    let desk = Alone::new(alloc, &shape_of(words))?;
    match hosts_of(alloc, &desk) {
        Ok(hosts) => Ok(Collection {
            desk,
            hosts,
            pace: MemPace::new(None),
            wire: Wire::new(alloc),
        }),
        Err(fault) => {
            // By a call, as the program's stage.
            drop(desk);
            Err(fault)
        }
    }
}

/// The shape of the collection that a line asks for.
fn shape_of(words: &[&str]) -> Shape
    ensures { IsShape result }
{
    let shards = number(words, 1).clamp(1, 64) as u32;
    let replicas = number(words, 2).clamp(1, 4) as u8;
    Shape {
        nodes: 2,
        shards,
        replicas,
        buckets: bucket_count(number(words, 3)),
        log_limit: log_limit(words, 4, shards, replicas),
    }
}

/// Hosts on which the cores of a new collection are started.
fn hosts_of(alloc: Global, desk: &Alone) -> Result<MemHosts, AllocError> {
    let cores = cores_of_map(alloc, desk.nodes(), desk.first())?;
    let mut hosts = MemHosts::new(alloc, List::new(alloc))?;
    match start_cores(&mut hosts, cores.as_slice()) {
        Ok(()) => Ok(hosts),
        Err(_) => Err(AllocError),
    }
}

/// One bucket, or two.
fn bucket_count(count: u64) -> u32
    ensures { is_bucket_count result ≡ true }
{
    if count == 2 { 2 } else { 1 }
}

/// Has the further calls of the hosts fail whose numbers the line `fails N..` lists, and no others; the next call has the number 0.
pub fn set_fails(alloc: Global, hosts: &mut MemHosts, words: &[&str]) -> Result<(), AllocError> {
    let mut fails = List::new(alloc);
    for at in 1..words.len() {
        fails.push(hosts.calls.saturating_add(number(words, at)))?;
    }
    hosts.set_fails(fails)
}

/// Has the pace say stop at the further call whose number the line `stops N` says, and at no other; the next call has the number 0.
pub fn set_stop(pace: &mut MemPace, words: &[&str]) {
    pace.stop_at = if words.len() < 2 {
        None
    } else {
        Some(pace.calls.saturating_add(number(words, 1)))
    };
}

/// The cores that are started, in the order of their names, each as `NAME@NODE`.
pub fn show_cores(alloc: Global, hosts: &MemHosts) -> Result<String, AllocError> {
    let mut cores = started_cores(alloc, hosts)?;
    cores.sort_unstable();
    let mut line = Line::new(alloc);
    let mut before = "";
    for core in &cores {
        line.push(before);
        line.push(core.as_str());
        before = " ";
    }
    line.end()
}

/// The cores that are started, each as `NAME@NODE`.
fn started_cores(alloc: Global, hosts: &MemHosts) -> Result<Vec<String>, AllocError> {
    let mut cores = Vec::new(alloc);
    for host in hosts.started.as_slice() {
        cores.push(joined(alloc, &host.core.as_str(), "@", &host.node)?)?;
    }
    Ok(cores)
}

/// What a connection comes to that sends a line and nothing else, where `|` stands for each end of a line: how it ended, what it wrote,
/// and its stops, each as its lock and its place, with a sign where it made an entry. A bucket's lock is its number, and the board's is
/// the number of buckets.
pub fn exchange<R: Threads + Sync>(
    rt: &R,
    alloc: Global,
    collection: &mut Collection,
    now: u64,
    line: &str,
) -> Result<String, AllocError>
    requires out { collection.old.desk.out ≡ None }
    requires board_out { collection.old.desk.board_out ≡ None }
    ensures out { collection.new.desk.out ≡ None }
    ensures board_out { collection.new.desk.board_out ≡ None }
{
    let bytes = line.replace(alloc, '|', "\r\n")?.into_bytes();
    let mut source = collection.wire.source(alloc, bytes)?;
    let mut sink = collection.wire.sink(alloc)?;
    serve_from(rt, alloc, collection, now, &mut source, &mut sink)
}

/// What a connection comes to over this source and this sink.
fn serve_from<R: Threads + Sync>(
    rt: &R,
    alloc: Global,
    collection: &mut Collection,
    now: u64,
    source: &mut MemSource,
    sink: &mut MemSink,
) -> Result<String, AllocError>
    requires out { collection.old.desk.out ≡ None }
    requires board_out { collection.old.desk.board_out ≡ None }
    ensures out { collection.new.desk.out ≡ None }
    ensures board_out { collection.new.desk.board_out ≡ None }
{
    let mut trail = Trail::new(alloc)?;
    let end = serve(
        rt,
        alloc,
        &mut collection.desk,
        &mut Fixed { moment: now },
        &mut collection.hosts,
        &mut collection.pace,
        source,
        sink,
        &mut trail,
    );
    shown_exchange(alloc, end, sink.bytes.as_slice(), &trail)
}

/// How a connection ended, what it wrote, and its stops.
fn shown_exchange(
    alloc: Global,
    end: End,
    written: &[u8],
    trail: &Trail,
) -> Result<String, AllocError> {
    let written = std::str::from_utf8(written).unwrap_or("invalid UTF-8");
    let written = written.replace(alloc, "\r\n", "|")?;
    let mut line = Line::new(alloc);
    line.debug("", &end);
    line.push(" ");
    line.push(written.as_str());
    for at in 0..trail.len() {
        if let Some(stop) = trail.get(at) {
            put_stop(&mut line, stop);
        }
    }
    line.end()
}

/// A stop: its lock and its place, with a sign where it made an entry.
fn put_stop(line: &mut Line, stop: Stop) {
    line.put(" ", &stop.lock);
    line.put(":", &stop.place);
    line.push(if stop.made { "+" } else { "" });
}
