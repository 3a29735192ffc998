//! The cores that a split makes: what they are called, and their start and stop.

ghost use Rattle.std.specs.Prelude.{◌≡◌, ◌≤◌, ◌<◌, ◌++◌, ℕ, length, map, All, IfOk, OnOk, Err, List, Option};
ghost use Rattle.std.specs.List.{flat_map};
ghost use Rattle.sc_record.specs.declared.slice.SubSlice.{SubSlice};
ghost use Rattle.sc_handover.specs.Made.{first_core};
ghost use Rattle.sc_cores.specs.Cores.{HasStarted, StopsEach};
ghost use Rattle.sc_split.specs.Outside.{sub_core_at, further_cores, cores_of};
ghost use Rattle.sc_split.specs.Stages.{further_names};

use crate::end::Fault;
use sc_cluster::SplitPlan;
use sc_cores::{core_of, stop_cores};
use sc_io::{Host, Hosts, Pace, SplitStep};
use sc_record::{CoreId, List, SubSlice, Text};
use std::alloc::{AllocError, Global};

/// The cores that a split makes, and what they and its subs are called.
#[derive(Drop)]
pub(crate) struct NewCores {
    /// The names of the subs.
    pub(crate) subs: List<Text>,
    /// The cores with their nodes, in the order in which they are started: the first of each sub, and then the further ones, sub by sub.
    pub(crate) hosts: List<Host>,
    /// The first cores of the subs.
    pub(crate) leaders: List<CoreId>,
    /// The further ones, sub by sub.
    pub(crate) followers: List<CoreId>,
}

impl NewCores {
    /// Those of this plan, on so many nodes.
    pub(crate) fn of(alloc: Global, nodes: u32, plan: &SplitPlan) -> Result<NewCores, AllocError>
        requires nodes { 1 ≤ nodes }
        ensures subs { IfOk result (λ cores. cores.subs ≡ map (λ (sub : SubSlice). sub.name) plan.now.subs) }
        ensures hosts { IfOk result (λ cores. cores.hosts ≡ cores_of nodes plan.now) }
        ensures leaders { IfOk result (λ cores. cores.leaders ≡ map first_core plan.now.subs) }
        ensures followers { IfOk result (λ cores. cores.followers ≡ flat_map further_names plan.now.subs) }
        ensures few { OnOk result (All (λ (sub : SubSlice). sub.replicas < 256) plan.now.subs) }
    {
        let subs = plan.subs.as_slice();
        let mut hosts = first_hosts(alloc, nodes, subs)?;
        push_further_hosts(alloc, nodes, subs, &mut hosts)?;
        Ok(NewCores {
            subs: names(alloc, subs)?,
            hosts: List::from_vec(hosts),
            leaders: leaders(alloc, subs)?,
            followers: followers(alloc, subs)?,
        })
    }
}

// The names of the subs.
fn names(alloc: Global, subs: &[SubSlice]) -> Result<List<Text>, AllocError>
    ensures { IfOk result (λ names. names ≡ map (λ (sub : SubSlice). sub.name) subs.now) }
{
    let mut names = Vec::with_capacity(alloc, subs.len())?;
    for sub in subs {
        names.push(sub.name.clone()?)?;
    }
    Ok(List::from_vec(names))
}

// The first cores of the subs.
fn leaders(alloc: Global, subs: &[SubSlice]) -> Result<List<CoreId>, AllocError>
    ensures { IfOk result (λ cores. cores ≡ map first_core subs.now) }
{
    let mut cores = Vec::with_capacity(alloc, subs.len())?;
    for sub in subs {
        cores.push(CoreId::leader(sub.id))?;
    }
    Ok(List::from_vec(cores))
}

// The further cores, sub by sub.
fn followers(alloc: Global, subs: &[SubSlice]) -> Result<List<CoreId>, AllocError>
    ensures { IfOk result (λ cores. cores ≡ flat_map further_names subs.now) }
{
    let mut cores = Vec::new(alloc);
    for sub in subs {
        push_followers(sub, &mut cores)?;
    }
    Ok(List::from_vec(cores))
}

// Puts the further cores of a sub after these.
fn push_followers(sub: &SubSlice, cores: &mut Vec<CoreId>) -> Result<(), AllocError>
    ensures { OnOk result (cores.new.items ≡ cores.old.items ++ further_names sub.now) }
{
    for k in 1..sub.replicas {
        cores.push(CoreId {
            slice: sub.id,
            replica: k + 1,
        })?;
    }
    Ok(())
}

// Replica k of a sub, from 1, with its node among so many.
fn host(alloc: Global, nodes: u32, sub: &SubSlice, k: u8) -> Result<Host, AllocError>
    requires nodes { 1 ≤ nodes }
    requires replica { 1 ≤ k }
    ensures { IfOk result (λ host. host ≡ sub_core_at nodes sub.now k) }
{
    core_of(alloc, nodes, sub.name.as_str(), sub.node, k)
}

// The first core of each sub.
fn first_hosts(alloc: Global, nodes: u32, subs: &[SubSlice]) -> Result<Vec<Host>, AllocError>
    requires nodes { 1 ≤ nodes }
    ensures { IfOk result (λ hosts. hosts.items ≡ map (λ sub. sub_core_at nodes sub 1) subs.now) }
{
    let mut hosts = Vec::with_capacity(alloc, subs.len())?;
    for sub in subs {
        hosts.push(host(alloc, nodes, sub, 1)?)?;
    }
    Ok(hosts)
}

// Puts the further cores of the subs after these, sub by sub.
fn push_further_hosts(
    alloc: Global,
    nodes: u32,
    subs: &[SubSlice],
    hosts: &mut Vec<Host>,
) -> Result<(), AllocError>
    requires nodes { 1 ≤ nodes }
    ensures hosts { OnOk result (hosts.new.items ≡ hosts.old.items ++ flat_map (further_cores nodes) subs.now) }
    ensures few { OnOk result (All (λ (sub : SubSlice). sub.replicas < 256) subs.now) }
{
    for sub in subs {
        push_hosts_of(alloc, nodes, sub, hosts)?;
    }
    Ok(())
}

// Puts the further cores of a sub after these.
fn push_hosts_of(
    alloc: Global,
    nodes: u32,
    sub: &SubSlice,
    hosts: &mut Vec<Host>,
) -> Result<(), AllocError>
    requires nodes { 1 ≤ nodes }
    ensures hosts { OnOk result (hosts.new.items ≡ hosts.old.items ++ further_cores nodes sub.now) }
    ensures few { sub.now.replicas < 256 }
{
    for k in 1..sub.replicas {
        hosts.push(host(alloc, nodes, sub, k + 1)?)?;
    }
    Ok(())
}

/// Starts the cores that come after the first `started`, up to the first `to`, and asks the pace after each. Counts those that were
/// started, so that where one failed it is the one at that place.
pub(crate) fn start_cores<H: Hosts, P: Pace>(
    hosts: &mut H,
    pace: &mut P,
    cores: &[Host],
    started: &mut usize,
    to: usize,
) -> Result<(), Fault>
    requires from { started.old ≤ to }
    requires to { to ≤ length cores.now }
    requires few { length cores.now < 4294967296 }
    ensures some { started.old ≤ started.new }
    ensures most { started.new ≤ to }
    ensures all { OnOk result (started.new ≡ to) }
    ensures started { (before : Option (List Host)) → HasStarted cores.now started.old before (H.started hosts.old)
        → HasStarted cores.now started.new before (H.started hosts.new) }
    ensures steady { OnOk result (H.start_faults hosts.new ≡ H.start_faults hosts.old) }
    ensures failed { result ≡ Err Fault.Host → (started.new < to) × (H.start_faults hosts.old < H.start_faults hosts.new) }
    ensures no_fall { H.start_faults hosts.old ≤ H.start_faults hosts.new }
    ensures other_count { H.stop_faults hosts.new ≡ H.stop_faults hosts.old }
    ensures reached { H.reached hosts.new ≡ H.reached hosts.old }
    ensures pace { OnOk result (P.stops pace.new ≡ P.stops pace.old) }
    ensures stopped { result ≡ Err Fault.Stopped → P.stops pace.old < P.stops pace.new }
    ensures no_fall_of_pace { P.stops pace.old ≤ P.stops pace.new }
    ensures not_full { result ≡ Err Fault.LogFull → ⊥ }
{
    for at in *started..to {
        let core = &cores[at];
        if hosts.start_core(core.node, core.core.as_str()).is_err() {
            return Err(Fault::Host);
        }
        *started = at + 1;
        if !pace.between(SplitStep::Started { core: at as u32 }) {
            return Err(Fault::Stopped);
        }
    }
    Ok(())
}

/// Stops the cores, in order. Where stopping one fails the others are stopped still.
pub(crate) fn stop_all<H: Hosts>(hosts: &mut H, cores: &[Host])
    ensures each { (failed : Option ℕ) × StopsEach cores.now (H.started hosts.old) (H.started hosts.new)
        (H.stop_faults hosts.old) (H.stop_faults hosts.new) failed }
    ensures no_fall { H.stop_faults hosts.old ≤ H.stop_faults hosts.new }
    ensures other_count { H.start_faults hosts.new ≡ H.start_faults hosts.old }
    ensures reached { H.reached hosts.new ≡ H.reached hosts.old }
{
    let _ = stop_cores(hosts, cores);
}
