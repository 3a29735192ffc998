ghost use Rattle.std.specs.Prelude.{◌≡◌, ◌<◌, ◌↔◌, ◌+◌, ◌-◌, ◌^◌, [], ◌∷◌, ◌++◌, length, min, max, Some, IsTrue, IsFalse, IsErr, IfOk, OnOk, OnErr, Contains, if◌then◌else◌};
ghost use Rattle.std.specs.List.{list_any};
ghost use Rattle.sc_io.specs.Hosts.{is_core_on, with_core, without_core};

use crate::fault::{Failed, Faults};
use crate::hosts::{Host, Hosts};
use crate::nodes::Nodes;
use crate::pace::{Pace, SplitStep};
use sc_record::{List, Text};
use std::alloc::{AllocError, Global};
use std::mem;

// This is the core of that name on that node.
fn is_core(node: u32, core: &str, host: &Host) -> bool
    ensures { result ≡ is_core_on node core.now host.now }
{
    host.node == node && host.core.as_str() == core
}

// The core is among these.
fn has_core(node: u32, core: &str, cores: &[Host]) -> bool
    ensures { result ≡ list_any (is_core_on node core.now) cores.now }
{
    cores.iter().any(|host| is_core(node, core, host))
}

// Puts the core at the end, where it isn't among these.
fn add_core(alloc: Global, node: u32, core: &str, cores: &mut List<Host>) -> Result<(), AllocError>
    ensures ok { OnOk result (cores.new ≡ with_core node core.now cores.old) }
    ensures err { OnErr result (cores.new ≡ cores.old) }
{
    if has_core(node, core, cores.as_slice()) {
        return Ok(());
    }
    let core = Text::new(alloc, core)?;
    cores.push(Host { node, core })
}

// The cores without this one.
fn remove_core(node: u32, core: &str, cores: List<Host>) -> List<Host>
    ensures { result ≡ without_core node core.now cores }
{
    let mut cores = cores.into_vec();
    cores.retain(|host| !is_core(node, core, host));
    List::from_vec(cores)
}

/// Hosts that keep the list of the cores that are started, in the order in which they were started, and that of the nodes that
/// weren't reached. The calls, of all three kinds together, whose numbers, counted from 0, are in `fails` fail, and so does a start
/// that finds no memory; a `reach` of such a number fails exactly where there is room to note its node. `calls` is the number of the
/// next call; at 2^64 - 1 it stands still, and each call from there on has that number. `faults` counts the failures of
/// `start_core`.
#[derive(Debug, Drop)]
pub struct MemHosts {
    pub started: List<Host>,
    pub fails: List<u64>,
    pub calls: u64,
    pub faults: Faults,
    pub stop_faults: Faults,
    pub reach_faults: Faults,
    /// The nodes that weren't reached, in order, and room for those of the numbers that were given.
    pub unreached: Nodes,
    alloc: Global,
    pub ghost told: { length unreached.nodes ≡ reach_faults },
}

impl MemHosts {
    /// Hosts of which no core is started yet, and that were asked for no node, with room for a node for each of these numbers. An
    /// error means out of memory.
    pub fn new(alloc: Global, fails: List<u64>) -> Result<MemHosts, AllocError>
        ensures started { IfOk result (λ hosts. hosts.started ≡ []) }
        ensures fails { IfOk result (λ hosts. hosts.fails ≡ fails) }
        ensures calls { IfOk result (λ hosts. hosts.calls ≡ 0) }
        ensures faults { IfOk result (λ hosts. hosts.faults ≡ 0) }
        ensures stop_faults { IfOk result (λ hosts. hosts.stop_faults ≡ 0) }
        ensures unreached { IfOk result (λ hosts. hosts.unreached ≡ record { nodes = []; room = length fails }) }
    {
        let unreached = Nodes::with_room(alloc, fails.len())?;
        Ok(MemHosts {
            started: List::new(alloc),
            fails,
            calls: 0,
            faults: Faults::none(),
            stop_faults: Faults::none(),
            reach_faults: Faults::none(),
            unreached,
            alloc,
        })
    }

    /// Has the calls of these numbers fail, and no others, and makes room for a node for each of them. An error means out of memory.
    pub fn set_fails(&mut self, fails: List<u64>) -> Result<(), AllocError>
        ensures ok { OnOk result (self.new
            ≡ record self.old { fails = fails; unreached = record self.old.unreached { room = max self.old.unreached.room (length fails) } }) }
        ensures err { OnErr result (self.new ≡ self.old) }
    {
        self.unreached.reserve(fails.len())?;
        self.fails = fails;
        Ok(())
    }
}

impl Hosts for MemHosts {
    ghost started = { λ s. Some s.started };

    ghost start_faults = { λ s. s.faults };

    ghost stop_faults = { λ s. s.stop_faults };

    ghost reached = { λ s. record { faults = s.reach_faults; nodes = Some s.unreached.nodes } };

    fn start_core(&mut self, node: u32, core: &str) -> Result<(), Failed>
        ensures whole { OnOk result (self.new.started ≡ with_core node core.now self.old.started) }
        ensures failed { OnErr result (self.new.started ≡ self.old.started) }
        ensures steady { OnOk result (self.new.faults ≡ self.old.faults) }
        ensures cause { OnErr result (self.new.faults ≡ self.old.faults + 1) }
        ensures other_count { self.new.stop_faults ≡ self.old.stop_faults }
        ensures reached { self.new.unreached ≡ self.old.unreached }

        ensures fails { Contains self.old.fails self.old.calls → IsErr result }
        ensures counted { self.new.calls ≡ min (self.old.calls + 1) (2 ^ 64 - 1) }
        ensures kept_fails { self.new.fails ≡ self.old.fails }
    {
        let call = self.calls;
        self.calls = call.saturating_add(1);
        if self.fails.as_slice().contains(&call)
            || add_core(self.alloc, node, core, &mut self.started).is_err()
        {
            self.faults.rise();
            return Err(Failed);
        }
        Ok(())
    }

    fn stop_core(&mut self, node: u32, core: &str) -> Result<(), Failed>
        ensures whole { OnOk result (self.new.started ≡ without_core node core.now self.old.started) }
        ensures failed { OnErr result (self.new.started ≡ self.old.started) }
        ensures steady { OnOk result (self.new.stop_faults ≡ self.old.stop_faults) }
        ensures cause { OnErr result (self.new.stop_faults ≡ self.old.stop_faults + 1) }
        ensures other_count { self.new.faults ≡ self.old.faults }
        ensures reached { self.new.unreached ≡ self.old.unreached }

        ensures fails { IsErr result ↔ Contains self.old.fails self.old.calls }
        ensures counted { self.new.calls ≡ min (self.old.calls + 1) (2 ^ 64 - 1) }
        ensures kept_fails { self.new.fails ≡ self.old.fails }
    {
        let call = self.calls;
        self.calls = call.saturating_add(1);
        if self.fails.as_slice().contains(&call) {
            self.stop_faults.rise();
            return Err(Failed);
        }
        let cores = mem::replace(&mut self.started, List::new(self.alloc));
        self.started = remove_core(node, core, cores);
        Ok(())
    }

    fn reach(&mut self, node: u32) -> Result<(), Failed>
        ensures ok { OnOk result (self.new.unreached ≡ self.old.unreached) }
        ensures told { OnErr result (self.new.unreached
            ≡ record { nodes = self.old.unreached.nodes ++ node ∷ []; room = self.old.unreached.room - 1 }) }
        ensures cores { self.new.started ≡ self.old.started }
        ensures starts { self.new.faults ≡ self.old.faults }
        ensures stops { self.new.stop_faults ≡ self.old.stop_faults }

        ensures fails { IsErr result ↔ (Contains self.old.fails self.old.calls × (0 < self.old.unreached.room)) }
        ensures counted { self.new.calls ≡ min (self.old.calls + 1) (2 ^ 64 - 1) }
        ensures kept_fails { self.new.fails ≡ self.old.fails }
    {
        let call = self.calls;
        self.calls = call.saturating_add(1);
        if self.fails.as_slice().contains(&call) && self.unreached.note(node) {
            self.reach_faults.rise();
            return Err(Failed);
        }
        Ok(())
    }
}

/// A pace that says stop at the call of this number, counted from 0. `calls` is the number of the next call; at 2^64 - 1 it
/// stands still, and each call from there on has that number.
#[derive(Debug, Drop)]
pub struct MemPace {
    pub stop_at: Option<u64>,
    pub calls: u64,
    pub stops: Faults,
}

impl MemPace {
    /// A pace that wasn't asked yet.
    pub fn new(stop_at: Option<u64>) -> MemPace
        ensures stop_at { result.stop_at ≡ stop_at }
        ensures calls { result.calls ≡ 0 }
        ensures stops { result.stops ≡ 0 }
    {
        MemPace {
            stop_at,
            calls: 0,
            stops: Faults::none(),
        }
    }
}

impl Pace for MemPace {
    ghost stops = { λ s. s.stops };

    fn between(&mut self, _: SplitStep) -> bool
        ensures steady { IsTrue result → self.new.stops ≡ self.old.stops }
        ensures cause { IsFalse result → self.new.stops ≡ self.old.stops + 1 }

        ensures stops { IsFalse result ↔ (self.old.stop_at ≡ Some self.old.calls) }
        ensures counted { self.new.calls ≡ min (self.old.calls + 1) (2 ^ 64 - 1) }
        ensures kept { self.new.stop_at ≡ self.old.stop_at }
    {
        let call = self.calls;
        self.calls = call.saturating_add(1);
        if self.stop_at == Some(call) {
            self.stops.rise();
            return false;
        }
        true
    }
}
