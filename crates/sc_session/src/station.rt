ghost use Rattle.std.specs.Prelude.{◌≡◌, ◌↔◌, ◌<◌, ◌≤◌, ◌+◌, ◌^◌, ◌-◌, ℕ, Bool, true, false, map, min, Option, Some, None, IsErr, IfOk, IfSome, OnOk, OnErr, Contains, vec_len};
ghost use Rattle.sc_session.specs.Stations.{SetsAt, SetsReported, AreAsBefore, found_at, is_out};

use crate::listener::Listener;
use sc_io::{Clock, Failed, Faults, Hosts, Pace};
use sc_record::List;
use std::alloc::{AllocError, Global};
use std::marker::Send;
use std::mem;

/// What a worker works with: its clock, its hosts, its pace and its listener.
#[derive(Debug, Drop)]
pub struct Crew<C, H, P, L> {
    pub clock: C,
    pub hosts: H,
    pub pace: P,
    pub listener: L,
}

/// What opens the port, gives each worker its crew and takes it back: the machine's, a list in memory. Workers have numbers.
pub trait Station {
    ghost use Rattle.sc_session.specs.declared.station.Crew.{Crew};

    type C: Clock + Send;

    type H: Hosts + Send;

    type P: Pace + Send;

    type L: Listener + Send;

    /// The crews that are still to be given, by the worker's number, where it reports them.
    ghost crews: { Self → Option (ℕ → Option (Crew Self.C Self.H Self.P Self.L)) };

    /// The crews that were taken back, by the worker's number, where it reports them.
    ghost crews_back: { Self → Option (ℕ → Option (Crew Self.C Self.H Self.P Self.L)) };

    /// The crew of this number was given and is not back.
    ghost out: { Self → ℕ → Bool };

    /// How often opening the port has failed.
    ghost faults: { Self → ℕ };

    /// The port that was opened last, if one was, where it reports that.
    ghost opened: { Self → Option (Option ℕ) };

    /// Opens the port of this number, at which the listeners of the crews that are made from then on listen.
    fn open(&mut self, port: u16) -> Result<(), Failed>
        ensures steady { OnOk result (faults self.new ≡ faults self.old) }
        ensures cause { OnErr result (faults self.old < faults self.new) }
        ensures no_fall { faults self.old ≤ faults self.new }
        ensures opened { OnOk result (IfSome (opened self.old) (λ _. opened self.new ≡ Some (Some port))) }
        ensures not_opened { OnErr result (opened self.new ≡ opened self.old) }
        ensures crews { crews self.new ≡ crews self.old }
        ensures crews_back { crews_back self.new ≡ crews_back self.old }
        ensures out { AreAsBefore (out self.old) (out self.new) };

    /// Gives the crew of the worker of this number. It is refused for want of memory alone. A crew that was made before the port was
    /// opened has a listener that is never asked.
    fn crew(
        &mut self,
        alloc: Global,
        worker: u32,
    ) -> Result<Crew<Self::C, Self::H, Self::P, Self::L>, AllocError>
        ensures given { IfOk result (λ crew. IfSome (crews self.old) (λ all. all worker ≡ Some crew)) }
        ensures crews { OnOk result (SetsReported worker None (crews self.old) (crews self.new)) }
        ensures out { OnOk result (SetsAt worker true (out self.old) (out self.new)) }
        ensures refused { OnErr result (crews self.new ≡ crews self.old) }
        ensures refused_out { OnErr result (AreAsBefore (out self.old) (out self.new)) }
        ensures crews_back { crews_back self.new ≡ crews_back self.old }
        ensures faults { faults self.new ≡ faults self.old }
        ensures opened { opened self.new ≡ opened self.old };

    /// Takes the crew of this number back.
    fn back(&mut self, worker: u32, crew: Crew<Self::C, Self::H, Self::P, Self::L>)
        requires { out self.old worker ≡ true }
        ensures crews_back { SetsReported worker (Some crew) (crews_back self.old) (crews_back self.new) }
        ensures out { SetsAt worker false (out self.old) (out self.new) }
        ensures crews { crews self.new ≡ crews self.old }
        ensures faults { faults self.new ≡ faults self.old }
        ensures opened { opened self.new ≡ opened self.old };
}

/// A station that has the crews in a list, by the worker's number, and keeps those that are back in another, and the port that was opened
/// last. The calls of `open` whose
/// numbers, counted from 0, are in `fails` fail. `calls` is the number of the next call; at 2^64 - 1 it stands still, and each call
/// from there on has that number. For a number that has no crew, or
/// none any more, `crew` answers that there is no memory.
#[derive(Debug, Drop)]
pub struct MemStation<C, H, P, L> {
    pub crews: Vec<Option<Crew<C, H, P, L>>>,
    pub back: Vec<Option<Crew<C, H, P, L>>>,
    pub fails: List<u64>,
    pub calls: u64,
    pub faults: Faults,
    pub opened: Option<u16>,
    pub ghost same_length: { vec_len back ≡ vec_len crews },
}

impl<C, H, P, L> MemStation<C, H, P, L> {
    /// A station with these crews, which gave none yet. Its calls take no memory.
    pub fn new(
        alloc: Global,
        crews: Vec<Crew<C, H, P, L>>,
        fails: List<u64>,
    ) -> Result<MemStation<C, H, P, L>, AllocError>
    where
        C: Drop,
        H: Drop,
        P: Drop,
        L: Drop,
        ensures crews { IfOk result (λ station. station.crews.items ≡ map (λ crew. Some crew) crews.items) }
        ensures back { IfOk result (λ station. station.back.items ≡ map (λ crew. None) crews.items) }
        ensures fails { IfOk result (λ station. station.fails ≡ fails) }
        ensures calls { IfOk result (λ station. station.calls ≡ 0) }
        ensures faults { IfOk result (λ station. station.faults ≡ 0) }
        ensures opened { IfOk result (λ station. station.opened ≡ None) }
    {
        let (given, back) = placed(alloc, crews)?;
        Ok(MemStation {
            crews: given,
            back,
            fails,
            calls: 0,
            faults: Faults::none(),
            opened: None,
        })
    }
}

/// A place for each of these, with it there, and one with nothing in it.
fn placed<T: Drop>(
    alloc: Global,
    all: Vec<T>,
) -> Result<(Vec<Option<T>>, Vec<Option<T>>), AllocError>
    ensures given { IfOk result (λ places. places.0.items ≡ map (λ one. Some one) all.items) }
    ensures back { IfOk result (λ places. places.1.items ≡ map (λ one. None) all.items) }
{
    let mut given = Vec::with_capacity(alloc, all.len())?;
    let mut back = Vec::with_capacity(alloc, all.len())?;
    for one in all {
        given.push_reserved(Some(one));
        back.push_reserved(None);
    }
    Ok((given, back))
}

/// Takes what stands at this number, where something does and nothing is back there.
fn take_out<T>(
    crews: &mut Vec<Option<T>>,
    back: &Vec<Option<T>>,
    worker: u32,
) -> Result<T, AllocError>
    requires { vec_len back.now ≡ vec_len crews.old }
    ensures given { IfOk result (λ crew. found_at crews.old.items worker ≡ Some crew) }
    ensures crews { OnOk result (SetsAt worker None (found_at crews.old.items) (found_at crews.new.items)) }
    ensures out { OnOk result (SetsAt worker true (is_out crews.old.items back.now.items) (is_out crews.new.items back.now.items)) }
    ensures refused { OnErr result (crews.new ≡ crews.old) }
    ensures length { vec_len crews.new ≡ vec_len crews.old }
{
    let at = worker as usize;
    if at >= crews.len() || crews[at].is_none() || back[at].is_some() {
        return Err(AllocError);
    }
    Ok(crews[at].take().unwrap())
}

/// Puts this back at the number that it was taken from.
fn put_back<T>(crews: &Vec<Option<T>>, back: &mut Vec<Option<T>>, worker: u32, crew: T)
    requires length { vec_len back.old ≡ vec_len crews.now }
    requires out { is_out crews.now.items back.old.items worker ≡ true }
    ensures back { SetsAt worker (Some crew) (found_at back.old.items) (found_at back.new.items) }
    ensures out { SetsAt worker false (is_out crews.now.items back.old.items) (is_out crews.now.items back.new.items) }
    ensures length { vec_len back.new ≡ vec_len back.old }
{
    match mem::replace(&mut back[worker as usize], Some(crew)) {
        None => {}
        Some(_) => unreachable!(),
    }
}

impl<C: Clock + Send, H: Hosts + Send, P: Pace + Send, L: Listener + Send> Station
    for MemStation<C, H, P, L> {
    type C = C;

    type H = H;

    type P = P;

    type L = L;

    ghost crews = { λ s. Some (found_at s.crews.items) };

    ghost crews_back = { λ s. Some (found_at s.back.items) };

    ghost out = { λ s. is_out s.crews.items s.back.items };

    ghost faults = { λ s. s.faults };

    ghost opened = { λ s. Some s.opened };

    fn open(&mut self, port: u16) -> Result<(), Failed>
        ensures steady { OnOk result (self.new.faults ≡ self.old.faults) }
        ensures cause { OnErr result (self.new.faults ≡ self.old.faults + 1) }
        ensures opened { OnOk result (self.new.opened ≡ Some port) }
        ensures not_opened { OnErr result (self.new.opened ≡ self.old.opened) }
        ensures crews { self.new.crews ≡ self.old.crews }
        ensures back { self.new.back ≡ self.old.back }

        ensures fails { IsErr result ↔ Contains self.old.fails self.old.calls }
        ensures counted { self.new.calls ≡ min (self.old.calls + 1) (2 ^ 64 - 1) }
        ensures kept_fails { self.new.fails ≡ self.old.fails }
    {
        let call = self.calls;
        self.calls = call.saturating_add(1);
        if self.fails.as_slice().contains(&call) {
            self.faults.rise();
            return Err(Failed);
        }
        self.opened = Some(port);
        Ok(())
    }

    fn crew(&mut self, _: Global, worker: u32) -> Result<Crew<C, H, P, L>, AllocError>
        ensures given { IfOk result (λ crew. found_at self.old.crews.items worker ≡ Some crew) }
        ensures crews { OnOk result (SetsAt worker None (found_at self.old.crews.items) (found_at self.new.crews.items)) }
        ensures out { OnOk result (SetsAt worker true (is_out self.old.crews.items self.old.back.items) (is_out self.new.crews.items self.new.back.items)) }
        ensures refused { OnErr result (self.new.crews ≡ self.old.crews) }
        ensures back { self.new.back ≡ self.old.back }
        ensures faults { self.new.faults ≡ self.old.faults }
        ensures opened { self.new.opened ≡ self.old.opened }
    {
        take_out(&mut self.crews, &self.back, worker)
    }

    fn back(&mut self, worker: u32, crew: Crew<C, H, P, L>)
        requires { is_out self.old.crews.items self.old.back.items worker ≡ true }
        ensures back { SetsAt worker (Some crew) (found_at self.old.back.items) (found_at self.new.back.items) }
        ensures out { SetsAt worker false (is_out self.old.crews.items self.old.back.items) (is_out self.new.crews.items self.new.back.items) }
        ensures crews { self.new.crews ≡ self.old.crews }
        ensures faults { self.new.faults ≡ self.old.faults }
        ensures opened { self.new.opened ≡ self.old.opened }
    {
        put_back(&self.crews, &mut self.back, worker, crew);
    }
}
