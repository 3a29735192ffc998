//! `sc_demo`: a demonstration tells the same for any number of workers, and a status says what failed.

ghost use Rattle.sc_arguments.specs.Arguments.{IsDemo};

use crate::support::assert_text;
use sc_arguments::Demo;
use sc_demo::run_demo;
use sc_io::{Fixed, MemSink, MemSource, Never, NoPace};
use sc_record::List;
use sc_session::{Crew, MemListener, MemStation};
use std::alloc::{AllocError, Global};
use std::process::Abort;
use std::sync::Wait;
use std::test::Fail;
use std::thread::Threads;

/// A crew whose hosts never fail and whose pace always goes on. No connection comes to it.
type NoLink = Crew<Fixed, Never, NoPace, MemListener<MemSource, MemSink>>;

/// A crew for each of so many makers.
fn crews_of(alloc: Global, makers: u32) -> Result<Vec<NoLink>, AllocError> {
    let mut crews = Vec::new(alloc);
    for _ in 0..makers {
        crews.push(Crew {
            clock: Fixed { moment: 1000 },
            hosts: Never,
            pace: NoPace,
            listener: MemListener::new(alloc, Vec::new(alloc), List::new(alloc))?,
        })?;
    }
    Ok(crews)
}

/// What a demonstration comes to, by a station that has so many crews: its status, and what it wrote. The writes whose numbers are in `lines`
/// fail.
fn told<R: Threads + Wait + Sync>(
    rt: &R,
    alloc: Global,
    demo: &Demo,
    crews: u32,
    lines: List<u64>,
) -> Result<String, AllocError>
    requires { IsDemo demo.now }
{
    let mut station = MemStation::new(alloc, crews_of(alloc, crews)?, List::new(alloc))?;
    let mut sink = MemSink::new(alloc, lines);
    let status = run_demo(rt, alloc, demo, &mut sink, &mut station);
    drop(station);
    let lines = std::str::from_utf8(sink.bytes.as_slice()).unwrap_or("");
    let told = format!(in alloc; "{status}\n{lines}");
    drop(sink);
    told
}

/// Where nothing fails, a demonstration comes to this.
fn assert_whole<R: Threads + Wait + Sync + Abort>(
    rt: &R,
    alloc: Global,
    demo: &Demo,
    wanted: &str,
) -> Result<(), AllocError>
    requires { IsDemo demo.now }
{
    let crews = demo.workers.saturating_add(1);
    assert_told(rt, alloc, demo, crews, List::new(alloc), wanted)
}

/// By a station that has so many crews, and where these writes fail, a demonstration comes to this.
fn assert_told<R: Threads + Wait + Sync + Abort>(
    rt: &R,
    alloc: Global,
    demo: &Demo,
    crews: u32,
    lines: List<u64>,
    wanted: &str,
) -> Result<(), AllocError>
    requires { IsDemo demo.now }
{
    let found = told(rt, alloc, demo, crews, lines)?;
    assert_text(rt, found.as_str(), wanted);
    Ok(())
}

fn of_thousand() -> &'static str {
    "0\norders 1000\naccepted 1000\nsplit done\nfound 400\ng_s:a 133\ng_s:b 267\n"
}

fn of_ten() -> &'static str {
    "0\norders 10\naccepted 10\nsplit done\nfound 4\ng_s:a 1\ng_s:b 3\n"
}

fn of_one() -> &'static str {
    "0\norders 1\naccepted 1\nsplit done\nfound 1\ng_s:a 1\ng_s:b 0\n"
}

// The numbers are those of the workload by hand: of 1000 orders on 500 documents, every fifth of which is a deletion, 400 documents are left,
// 133 of them in group `a`; likewise of 10 orders and of one.
#[test]
fn demo_lines_are_the_same_for_any_number_of_workers(rt: HostRuntime) -> Result<(), Fail> {
    let alloc = rt.alloc();
    for workers in [1, 4, 8] {
        let thousand = Demo {
            seed: 1,
            count: 1000,
            workers,
        };
        let ten = Demo {
            seed: 1,
            count: 10,
            workers,
        };
        let one = Demo {
            seed: 0,
            count: 1,
            workers,
        };
        assert_whole(&rt, alloc, &thousand, of_thousand())?;
        assert_whole(&rt, alloc, &ten, of_ten())?;
        assert_whole(&rt, alloc, &one, of_one())?;
    }
    Ok(())
}

// Where the station has no crew for the one that splits, memory ran out; where writing the lines fails, nothing of them is there.
#[test]
fn a_demo_says_what_failed(rt: HostRuntime) -> Result<(), Fail> {
    let alloc = rt.alloc();
    let ten = Demo {
        seed: 1,
        count: 10,
        workers: 2,
    };
    assert_told(&rt, alloc, &ten, 2, List::new(alloc), "6\n")?;
    let first = List::from_vec(Vec::from_array(alloc, [0])?);
    assert_told(&rt, alloc, &ten, 3, first, "5\n")?;
    Ok(())
}
