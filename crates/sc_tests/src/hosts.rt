//! `sc_io`: hosts and paces that fail and stop by number, a clock that gives what it was told, and the folders of the machine's hosts.

use crate::support::{assert_same, assert_text};
use sc_io::{Clock, FolderHosts, Hosts, MemClock, MemHosts, MemPace, NoPace, Pace, SplitStep};
use sc_record::List;
use std::alloc::{AllocError, Global};
use std::fs;
use std::process::Abort;
use std::test::Fail;

// Which of the calls succeed, a `+` for each that does and a `-` for each that fails. A call is `start NODE CORE`, `stop NODE CORE` or
// `reach NODE`.
fn results<H: Hosts>(alloc: Global, hosts: &mut H, calls: &str) -> Result<String, AllocError> {
    let mut results = String::new(alloc);
    for call in calls.split(", ") {
        let (kind, rest) = call.split_once(' ').unwrap_or((call, ""));
        let (node, core) = rest.split_once(' ').unwrap_or((rest, ""));
        let succeeds = succeeds(hosts, kind, node.parse::<u32>().unwrap_or(0), core);
        results.push_str(if succeeds { "+" } else { "-" })?;
    }
    Ok(results)
}

fn succeeds<H: Hosts>(hosts: &mut H, kind: &str, node: u32, core: &str) -> bool {
    match kind {
        "start" => hosts.start_core(node, core).is_ok(),
        "stop" => hosts.stop_core(node, core).is_ok(),
        _ => hosts.reach(node).is_ok(),
    }
}

// The cores, one after another.
fn shown(alloc: Global, hosts: &MemHosts) -> Result<String, AllocError> {
    let mut text = String::new(alloc);
    for host in &hosts.started {
        let node = host.node;
        let core = &host.core;
        text.push_str(format!(in alloc; "{core} on {node};")?.as_str())?;
    }
    Ok(text)
}

// The nodes that weren't reached, one after another.
fn unreached(alloc: Global, hosts: &MemHosts) -> Result<String, AllocError> {
    let mut text = String::new(alloc);
    for node in hosts.unreached.as_slice() {
        text.push_str(format!(in alloc; "{node};")?.as_str())?;
    }
    Ok(text)
}

// The fourth and the sixth fail.
fn calls_of_memory() -> &'static str {
    "start 1 a, start 2 b, start 1 a, stop 1 a, stop 1 a, start 1 c, stop 2 a, start 2 c"
}

#[test]
fn hosts_in_memory_keep_the_started_cores_and_fail_by_number(rt: HostRuntime) -> Result<(), Fail> {
    let alloc = rt.alloc();
    let fails = List::from_vec(Vec::from_array(alloc, [3, 5])?);
    let mut hosts = MemHosts::new(alloc, fails)?;
    keep_and_fail(&rt, alloc, &mut hosts)
}

// The fourth and the sixth call fail, and the cores that were started stay.
fn keep_and_fail(rt: &impl Abort, alloc: Global, hosts: &mut MemHosts) -> Result<(), Fail> {
    let results = results(alloc, hosts, calls_of_memory())?;
    assert_text(rt, results.as_str(), "+++-+-++");
    assert_text(rt, shown(alloc, hosts)?.as_str(), "b on 2;c on 2;");
    assert_same(
        rt,
        (hosts.faults.count(), hosts.stop_faults.count()),
        (1, 1),
    );
    Ok(())
}

#[test]
fn hosts_in_memory_note_the_nodes_that_they_fail_to_reach(rt: HostRuntime) -> Result<(), Fail> {
    let alloc = rt.alloc();
    let mut hosts = MemHosts::new(alloc, List::from_vec(Vec::from_array(alloc, [1, 2])?))?;
    let first = results(alloc, &mut hosts, "reach 1, reach 7, stop 7 a, reach 7")?;
    assert_text(&rt, first.as_str(), "+--+");
    hosts.set_fails(List::from_vec(Vec::from_array(alloc, [5])?))?;
    let next = results(alloc, &mut hosts, "reach 7, reach 2, start 2 a")?;
    assert_text(&rt, next.as_str(), "+-+");
    assert_text(&rt, unreached(alloc, &hosts)?.as_str(), "7;2;");
    assert_same(
        &rt,
        (
            hosts.faults.count(),
            hosts.stop_faults.count(),
            hosts.reach_faults.count(),
        ),
        (0, 1, 2),
    );
    Ok(())
}

const FOLDER: &str = "cores/docs_shard1_replica_n1";

const FILE: &str = "cores/docs_shard1_replica_n1/core.properties";

// A name that no folder can have, and a start twice.
fn starts_of_folders() -> &'static str {
    "start 7 \0, start 7 docs_shard1_replica_n1, start 7 docs_shard1_replica_n1"
}

// Such a name, and a stop twice.
fn stops_of_folders() -> &'static str {
    "stop 7 \0, stop 7 docs_shard1_replica_n1, stop 7 docs_shard1_replica_n1"
}

// The properties of a started core.
fn properties() -> &'static str {
    "name=docs_shard1_replica_n1\ncollection=docs\nnode=7\n"
}

#[test]
fn a_started_core_is_a_folder_with_its_properties(rt: HostRuntime) -> Result<(), Fail> {
    let alloc = rt.alloc();
    let mut hosts = FolderHosts::new(alloc, &rt);
    let started = results(alloc, &mut hosts, starts_of_folders())?;
    assert_text(&rt, started.as_str(), "-++");
    assert_text(&rt, fs::read_to_string(&rt, FILE)?.as_str(), properties());
    let stopped = results(alloc, &mut hosts, stops_of_folders())?;
    assert_text(&rt, stopped.as_str(), "-++");
    assert!(rt; !fs::exists(&rt, FOLDER)?);
    assert_same(
        &rt,
        (hosts.faults.count(), hosts.stop_faults.count()),
        (1, 1),
    );
    fs::remove_dir(&rt, "cores")?;
    Ok(())
}

// A node is away while a file or a folder has its name.
#[test]
fn a_node_is_away_while_anything_has_the_name_that_says_so(rt: HostRuntime) -> Result<(), Fail> {
    let alloc = rt.alloc();
    let mut hosts = FolderHosts::new(alloc, &rt);
    fs::write(&rt, "down-2", "")?;
    fs::create_dir(&rt, "down-4294967295")?;
    let away = results(
        alloc,
        &mut hosts,
        "reach 1, reach 2, reach 22, reach 4294967295, reach 0",
    )?;
    assert_text(&rt, away.as_str(), "+-+-+");
    fs::remove_file(&rt, "down-2")?;
    fs::remove_dir(&rt, "down-4294967295")?;
    let back = results(alloc, &mut hosts, "reach 2, reach 4294967295")?;
    assert_text(&rt, back.as_str(), "++");
    assert_same(
        &rt,
        (
            hosts.faults.count(),
            hosts.stop_faults.count(),
            hosts.reach_faults.count(),
        ),
        (0, 0, 2),
    );
    Ok(())
}

// What the next calls of the pace answer.
fn answers<P: Pace>(pace: &mut P) -> [bool; 4] {
    [
        pace.between(SplitStep::Begun),
        pace.between(SplitStep::Started { core: 0 }),
        pace.between(SplitStep::Fed { bucket: 0 }),
        pace.between(SplitStep::BeforeSwitch),
    ]
}

#[test]
fn a_pace_in_memory_stops_by_number(rt: HostRuntime) {
    let mut pace = MemPace::new(Some(2));
    assert_same(&rt, answers(&mut pace), [true, true, false, true]);
    assert_same(&rt, pace.stops.count(), 1);
    assert_same(&rt, answers(&mut NoPace), [true; 4]);
}

#[test]
fn a_clock_in_memory_gives_its_timestamps_and_then_the_last(rt: HostRuntime) -> Result<(), Fail> {
    let mut clock = MemClock::new(List::from_vec(Vec::from_array(rt.alloc(), [3, 5])?));
    assert_same(&rt, clock.now(), 3);
    assert_same(&rt, clock.now(), 5);
    assert_same(&rt, clock.now(), 5);
    Ok(())
}
