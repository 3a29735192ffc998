//! The whole of a demonstration.
ghost use Rattle.sc_arguments.specs.Arguments.{IsDemo};
ghost use Rattle.sc_server.specs.Serving.{front_of};
ghost use Rattle.sc_demo.specs.Making.{maker_reports};
ghost use Rattle.sc_demo.specs.Demos.{EndsDemo};

use crate::makers::{dismiss, enlist, make_all};
use crate::needs::{Needs, needs_of};
use crate::task::Outcome;
use crate::telling::tell;
use sc_arguments::Demo;
use sc_io::Sink;
use sc_session::Station;
use std::alloc::Global;
use std::sync::Wait;
use std::thread::Threads;

/// Makes a workload on several threads, splits its shard beside them, and writes six lines on what came of it. In this order: the collection
/// and what the makers need are made (6 where memory runs out), each maker gets a crew (6), the first cores are started by the hosts of crew
/// 0 (8 where one fails), the makers work (6), their crews are given back, every bucket is committed and three searches are made (6), and the
/// lines are written (5 where that fails). Else the status is 0. Each crew that was given is given back, and with the statuses 6 and 8
/// nothing is written.
pub fn run_demo<R: Threads + Wait + Sync, W: Sink, T: Station>(
    rt: &R,
    alloc: Global,
    demo: &Demo,
    sink: &mut W,
    station: &mut T,
) -> u8
    requires demo { IsDemo demo.now }
    ensures ends { EndsDemo
        (maker_reports T.C.Clock T.H.Hosts T.P.Pace)
        demo.now
        (front_of T.Station W.Sink station.old sink.old)
        (front_of T.Station W.Sink station.new sink.new)
        result }
{
    let Needs {
        collection,
        mut passes,
        cores,
        kits,
        mut trail,
    } = match needs_of(alloc, demo) {
        Ok(needs) => needs,
        Err(_) => return 6,
    };
    let Ok(mut makers) = Vec::with_capacity(alloc, kits.len()) else {
        return 6;
    };
    let outcome = match enlist(rt, alloc, demo, &collection, kits, station, &mut makers) {
        Ok(()) => make_all(rt, alloc, makers.as_mut_slice(), cores.as_slice()),
        Err(_) => Outcome::Memory,
    };
    dismiss(&collection, &mut passes, station, makers);
    tell(
        rt,
        alloc,
        demo,
        &collection,
        passes,
        &mut trail,
        sink,
        outcome,
    )
}
