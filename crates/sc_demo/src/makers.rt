//! All makers: they get their crews, work beside each other, and give their crews back.
ghost use Rattle.std.specs.Prelude.{◌≡◌, ◌≤◌, ◌<◌, ◌+◌, ◌^◌, ℕ, true, [], length, All, IfSome, IfOk, OnOk, vec_len, vec_capacity};
ghost use Rattle.std.specs.List.{list_any, sum_by};
ghost use Rattle.sc_shared.specs.Passes.{seen_of};
ghost use Rattle.sc_shared.specs.Collections.{Locks, SeesBoth};
ghost use Rattle.sc_shared.specs.Sharing.{ArePasses};
ghost use Rattle.sc_arguments.specs.Arguments.{most_workers, most_orders};
ghost use Rattle.sc_server.specs.Crews.{seen_with, station_state};
ghost use Rattle.sc_demo.specs.Making.{accepted_in, maker_reports, ran_out_in};
ghost use Rattle.sc_demo.specs.Makers.{IsMakerKit, MakersHaveCrews, MakersHaveGivenBack, MakersHaveJoined, IsMakerHome, IsMakerReady, IsReadyToMake, HasMade, HaveMade, MakesAll, IsOutcomeOf, TellsSplit};

use crate::maker::Maker;
use crate::needs::Kit;
use crate::task::{Outcome, task_of};
use sc_arguments::Demo;
use sc_cores::start_cores;
use sc_io::{Clock, Host, Hosts, Pace};
use sc_record::Text;
use sc_session::Station;
use sc_shared::{Collection, Passes};
use std::alloc::{AllocError, Global};
use std::marker::Send;
use std::sync::Wait;
use std::thread;
use std::thread::Threads;

/// Gives each maker a crew of the station, by its number: the workers come first, and then the one that splits. Where memory runs out,
/// those before it are there.
pub fn enlist<'a, R, T: Station>(
    rt: &'a R,
    alloc: Global,
    demo: &Demo,
    collection: &'a Collection,
    kits: Vec<Kit>,
    station: &mut T,
    makers: &mut Vec<Maker<'a, R, T::C, T::H, T::P, T::L>>,
) -> Result<(), AllocError>
    requires kits { All (IsMakerKit collection.now) kits.items }
    requires few { length kits.items < 2 ^ 32 }
    requires none { makers.old.items ≡ [] }
    requires room { vec_len kits ≤ vec_capacity makers.old }
    ensures all { OnOk result (length makers.new.items ≡ length kits.items) }
    ensures at_most { length makers.new.items ≤ length kits.items }
    ensures have { MakersHaveCrews demo.now collection.now makers.new.items
        (station_state T.Station station.old)
        (station_state T.Station station.new) }
{
    for kit in kits {
        let number = makers.len() as u32;
        let crew = station.crew(alloc, number)?;
        let Kit { passes, trail } = kit;
        makers.push_reserved(Maker {
            rt,
            alloc,
            collection,
            passes: Some(passes),
            trail,
            crew,
            demo: *demo,
            task: task_of(demo, number),
            made: None,
        });
    }
    Ok(())
}

/// Starts the first cores, and has all makers work, each in a thread of its own. Tells what came of it.
pub fn make_all<
    'a,
    R: Threads + Wait + Sync,
    C: Clock + Send,
    H: Hosts + Send,
    P: Pace + Send,
    L: Send,
>(rt: &R, alloc: Global, makers: &mut [Maker<'a, R, C, H, P, L>], cores: &[Host]) -> Outcome
    requires ready { All IsReadyToMake makers.old }
    requires some { 1 ≤ length makers.old }
    requires most { length makers.old ≤ most_workers + 1 }
    ensures makes { MakesAll
        (maker_reports C.Clock H.Hosts P.Pace)
        cores.now makers.old makers.new result }
    ensures home { (collection : Locks) → All (IsMakerReady collection) makers.old → All (IsMakerHome collection) makers.new }
    ensures count { length makers.new ≡ length makers.old }
{
    if start_cores(&mut makers[0].crew.hosts, cores).is_err() {
        return Outcome::HostFailed;
    }
    work_all(rt, makers);
    outcome_of(alloc, makers)
}

/// Has all makers work, each in a thread of its own.
fn work_all<
    'a,
    R: Threads + Wait + Sync,
    C: Clock + Send,
    H: Hosts + Send,
    P: Pace + Send,
    L: Send,
>(rt: &R, makers: &mut [Maker<'a, R, C, H, P, L>])
    requires ready { All IsReadyToMake makers.old }
    requires some { 1 ≤ length makers.old }
    ensures made { HaveMade
        (maker_reports C.Clock H.Hosts P.Pace)
        makers.old makers.new }
    ensures home { (collection : Locks) → All (IsMakerReady collection) makers.old → All (IsMakerHome collection) makers.new }
    ensures count { length makers.new ≡ length makers.old }
{
    let count = makers.len();
    thread::for_each_mut(
        rt,
        makers,
        count,
        &|_, maker: &mut Maker<R, C, H, P, L>|
            requires { IsReadyToMake maker.old }
            ensures { IsMakerHome maker.old.collection.now maker.new × HasMade
                (maker_reports C.Clock H.Hosts P.Pace)
                maker.old maker.new }
        { maker.run() },
    );
}

/// What came of makers that have worked.
fn outcome_of<'a, R, C, H, P, L>(alloc: Global, makers: &[Maker<'a, R, C, H, P, L>]) -> Outcome
    requires few { All (λ maker. accepted_in maker.made ≤ most_orders) makers.now }
    requires some { 1 ≤ length makers.now }
    requires most { length makers.now ≤ most_workers + 1 }
    ensures { IsOutcomeOf makers.now result }
{
    if any_ran_out(makers) {
        return Outcome::Memory;
    }
    match split_of(alloc, makers) {
        Ok(split) => Outcome::Told {
            accepted: accepted_by(makers),
            split,
        },
        Err(_) => Outcome::Memory,
    }
}

/// Memory ran out for one of the makers.
fn any_ran_out<'a, R, C, H, P, L>(makers: &[Maker<'a, R, C, H, P, L>]) -> bool
    ensures { result ≡ list_any (λ maker. ran_out_in maker.made) makers.now }
{
    makers.iter().any(|maker| maker.has_run_out())
}

/// How many orders were accepted.
fn accepted_by<'a, R, C, H, P, L>(makers: &[Maker<'a, R, C, H, P, L>]) -> u32
    requires few { All (λ maker. accepted_in maker.made ≤ most_orders) makers.now }
    requires most { length makers.now ≤ most_workers + 1 }
    ensures { result ≡ sum_by (λ maker. accepted_in maker.made) makers.now }
{
    let mut accepted = 0;
    for maker in makers {
        accepted += maker.accepted();
    }
    accepted
}

/// What the line on the split says, which the last maker made. An error means out of memory.
fn split_of<'a, R, C, H, P, L>(
    alloc: Global,
    makers: &[Maker<'a, R, C, H, P, L>],
) -> Result<Text, AllocError>
    requires some { 1 ≤ length makers.now }
    ensures { IfOk result (TellsSplit makers.now) }
{
    makers[makers.len() - 1].split_told(alloc)
}

/// Gives the crew of each maker back to the station, and joins its passes with those off which they were split.
pub fn dismiss<'a, R, T: Station>(
    collection: &Collection,
    passes: &mut Passes,
    station: &mut T,
    mut makers: Vec<Maker<'a, R, T::C, T::H, T::P, T::L>>,
)
    requires few { length makers.items < 2 ^ 32 }
    requires passes { ArePasses collection.now passes.old }
    requires none { (lock : ℕ) → (seen_of passes.old).own lock ≡ [] }
    requires makers { All (IsMakerHome collection.now) makers.items }
    requires out { (number : ℕ) → number < length makers.items → T.out station.old number ≡ true }
    ensures joined { MakersHaveJoined collection.now makers.entry.items passes.new }
    ensures back { MakersHaveGivenBack makers.entry.items
        (station_state T.Station station.old)
        (station_state T.Station station.new) }
{
    while let Some(maker) = makers.pop() {
        let Maker {
            rt: _,
            alloc: _,
            collection: _,
            passes: worked,
            trail: _,
            crew,
            demo: _,
            task: _,
            made: _,
        } = maker;
        join_worked(collection, passes, worked);
        station.back(makers.len() as u32, crew);
    }
    // A maker can't be let go of, so a list of them can't either, until it is empty.
    makers.destroy_empty();
}

/// Joins the passes of a maker, if it has any, with those off which they were split.
fn join_worked(collection: &Collection, passes: &mut Passes, worked: Option<Passes>)
    requires into { ArePasses collection.now passes.old }
    requires from { IfSome worked (ArePasses collection.now) }
    ensures passes { ArePasses collection.now passes.new }
    ensures joined { SeesBoth (seen_of passes.old) (seen_with worked) (seen_of passes.new) }
{
    if let Some(worked) = worked {
        collection.join_passes(passes, worked);
    }
}
