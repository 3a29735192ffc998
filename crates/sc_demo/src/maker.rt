//! One maker, as it goes to its thread and comes back.
ghost use Rattle.std.specs.Prelude.{◌≡◌, Some};
ghost use Rattle.sc_arguments.specs.Arguments.{IsDemo};
ghost use Rattle.sc_collection.specs.Desks.{nothing_out};
ghost use Rattle.sc_demo.specs.Making.{IsTaskOf, MakesTask, maker_reports};
ghost use Rattle.sc_demo.specs.Makers.{IsMakerHome, IsMakerReady, HasMade};

use crate::splitting::split_first;
use crate::task::{Made, Task};
use crate::writing::write;
use sc_arguments::Demo;
use sc_collection::{Desk, Trail};
use sc_io::{Clock, Hosts, Pace};
use sc_record::Text;
use sc_session::Crew;
use sc_shared::{Collection, Home, Passes, Shared};
use std::alloc::{AllocError, Global};
use std::marker::Brand;
use std::sync::Wait;

/// A maker: its passes, its trail and its crew; what it is to make, and what it made, once it has.
pub struct Maker<'a, R, C, H, P, L> {
    pub rt: &'a R,
    pub alloc: Global,
    pub collection: &'a Collection,
    /// None while it works.
    pub passes: Option<Passes>,
    pub trail: Trail,
    pub crew: Crew<C, H, P, L>,
    pub demo: Demo,
    pub task: Task,
    /// None before it has worked.
    pub made: Option<Made>,
}

impl<'a, R: Wait, C: Clock, H: Hosts, P: Pace, L> Maker<'a, R, C, H, P, L> {
    /// Makes what it is to make.
    pub fn run(&mut self)
        requires ready { IsMakerReady self.old.collection.now self.old }
        ensures home { IsMakerHome self.old.collection.now self.new }
        ensures made { HasMade
            (maker_reports C.Clock H.Hosts P.Pace)
            self.old self.new }
    {
        run_at::<Brand, R, C, H, P, L>(self)
    }
}

// Makes what it is to make, over the collection of its desk's home.
fn run_at<N: Home, R: Wait, C: Clock, H: Hosts, P: Pace, L>(maker: &mut Maker<R, C, H, P, L>)
    requires home { N.locks ≡ Some maker.old.collection.now }
    requires ready { IsMakerReady maker.old.collection.now maker.old }
    ensures home { IsMakerHome maker.old.collection.now maker.new }
    ensures made { HasMade
        (maker_reports C.Clock H.Hosts P.Pace)
        maker.old maker.new }
{
    let passes = maker.passes.take().unwrap();
    let mut desk = Shared::<R, N>::new(maker.rt, maker.collection, passes);
    let made = make(
        maker.alloc,
        &mut desk,
        &mut maker.crew.clock,
        &mut maker.crew.hosts,
        &mut maker.crew.pace,
        &mut maker.trail,
        &maker.demo,
        maker.task,
    );
    maker.passes = Some(desk.into_passes());
    maker.made = Some(made);
}

// Makes what is to be made, over a desk out of which nothing is.
fn make<D: Desk, C: Clock, H: Hosts, P: Pace>(
    alloc: Global,
    desk: &mut D,
    clock: &mut C,
    hosts: &mut H,
    pace: &mut P,
    trail: &mut Trail,
    demo: &Demo,
    task: Task,
) -> Made
    requires demo { IsDemo demo.now }
    requires task { IsTaskOf demo.now task }
    requires nothing_out { D.out desk.old ≡ nothing_out }
    ensures made { MakesTask
        (record {
          reports = maker_reports C.Clock H.Hosts P.Pace;
          layout = D.layout desk.old;
        })
        demo.now task
        (record { seen = D.seen desk.old; clock = clock.old; hosts = hosts.old; pace = pace.old })
        (record { seen = D.seen desk.new; clock = clock.new; hosts = hosts.new; pace = pace.new })
        result }
    ensures layout { D.layout desk.new ≡ D.layout desk.old }
    ensures nothing_out { D.out desk.new ≡ nothing_out }
{
    let _ = desk.buckets(); // by it the proof knows how many there may be, and that what was seen is legal
    match task {
        Task::Write { worker } => Made::Orders(write(
            alloc,
            desk,
            clock,
            trail,
            demo.seed,
            demo.count,
            worker,
            demo.workers,
        )),
        Task::Split => Made::Split(split_first(alloc, desk, hosts, pace, trail)),
    }
}

impl<'a, R, C, H, P, L> Maker<'a, R, C, H, P, L> {
    ghost use Rattle.std.specs.Prelude.{IfOk};
    ghost use Rattle.sc_demo.specs.Making.{TellsIn, accepted_in, ran_out_in};

    /// How many orders were accepted.
    pub fn accepted(&self) -> u32
        ensures { result ≡ accepted_in self.now.made }
    {
        match &self.made {
            Some(made) => made.accepted(),
            None => 0,
        }
    }

    /// Memory ran out.
    pub fn has_run_out(&self) -> bool
        ensures { result ≡ ran_out_in self.now.made }
    {
        match &self.made {
            Some(made) => made.ran_out(),
            None => false,
        }
    }

    /// What the line on the split says, where it made one. An error means out of memory, or that it made none.
    pub fn split_told(&self, alloc: Global) -> Result<Text, AllocError>
        ensures { IfOk result (TellsIn self.now.made) }
    {
        match &self.made {
            Some(made) => made.split_told(alloc),
            None => Err(AllocError),
        }
    }
}
