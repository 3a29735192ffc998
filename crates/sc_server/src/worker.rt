//! One worker, as it goes to its thread and comes back.
ghost use Rattle.std.specs.Prelude.{◌≡◌, Some};
ghost use Rattle.sc_server.specs.Reports.{reports_of};
ghost use Rattle.sc_server.specs.Working.{IsReady, HasWorked};

use crate::clock::WorkerClock;
use sc_collection::Trail;
use sc_io::{Clock, Hosts, Pace};
use sc_session::{Crew, Listener, WorkEnd, work};
use sc_shared::{Collection, Home, Passes, Shared};
use std::alloc::Global;
use std::marker::Brand;
use std::sync::Wait;
use std::thread::Threads;

/// A worker: its passes, its trail and its crew; how many connections it serves at most; and how it ended, once it has.
pub struct Worker<'a, R, C, H, P, L> {
    pub rt: &'a R,
    pub alloc: Global,
    pub collection: &'a Collection,
    /// None while it works.
    pub passes: Option<Passes>,
    pub trail: Trail,
    pub crew: Crew<WorkerClock<C>, H, P, L>,
    pub most: u32,
    /// None before it has worked.
    pub end: Option<WorkEnd>,
}

impl<'a, R: Threads + Wait + Sync, C: Clock, H: Hosts, P: Pace, L: Listener> Worker<
    'a,
    R,
    C,
    H,
    P,
    L,
> {
    /// Serves connections up to the end of the worker.
    pub fn run(&mut self)
        requires ready { IsReady self.old.collection.now self.old }
        ensures ready { IsReady self.old.collection.now self.new }
        ensures worked { HasWorked
            (reports_of C.Clock H.Hosts P.Pace L.Listener L.S.Source L.W.Sink)
            self.old self.new }
    {
        run_at::<Brand, R, C, H, P, L>(self)
    }
}

// Serves connections up to the end of the worker, whose collection is the one of its desk's home.
fn run_at<N: Home, R: Threads + Wait + Sync, C: Clock, H: Hosts, P: Pace, L: Listener>(
    worker: &mut Worker<R, C, H, P, L>,
)
    requires home { N.locks ≡ Some worker.old.collection.now }
    requires ready { IsReady worker.old.collection.now worker.old }
    ensures ready { IsReady worker.old.collection.now worker.new }
    ensures worked { HasWorked
        (reports_of C.Clock H.Hosts P.Pace L.Listener L.S.Source L.W.Sink)
        worker.old worker.new }
{
    let passes = worker.passes.take().unwrap();
    let mut desk = Shared::<R, N>::new(worker.rt, worker.collection, passes);
    let end = work(
        worker.rt,
        worker.alloc,
        &mut desk,
        &mut worker.crew.clock,
        &mut worker.crew.hosts,
        &mut worker.crew.pace,
        &mut worker.crew.listener,
        &mut worker.trail,
        worker.most,
    );
    worker.passes = Some(desk.into_passes());
    worker.end = Some(end);
}

impl<'a, R, C, H, P, L> Worker<'a, R, C, H, P, L> {
    ghost use Rattle.sc_server.specs.Working.{ended_by_fault};

    /// It has ended, since its listener failed.
    pub fn has_failed(&self) -> bool
        ensures { result ≡ ended_by_fault self.now.end }
    {
        matches!(self.end, Some(WorkEnd::ListenerFault))
    }
}
