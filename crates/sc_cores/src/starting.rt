//! Cores are started and stopped.

ghost use Rattle.std.specs.Prelude.{◌≡◌, ◌≤◌, ◌<◌, ℕ, List, Option, Some, None, length, IfSome, OnOk, OnErr};
ghost use Rattle.sc_io.specs.declared.hosts.Host.{Host};
ghost use Rattle.sc_cores.specs.Cores.{HasStarted, with_cores, without_cores, StopsEach};

use sc_io::{Failed, Host, Hosts};

/// Starts each of the cores, in order, up to the first that fails. Those before it stay started.
pub fn start_cores<H: Hosts>(hosts: &mut H, cores: &[Host]) -> Result<(), Failed>
    ensures started { OnOk result (IfSome (H.started hosts.old) (λ before. H.started hosts.new ≡ Some (with_cores cores.now before))) }
    ensures rest { OnErr result ((count : ℕ) × (count < length cores.now)
        × HasStarted cores.now count (H.started hosts.old) (H.started hosts.new)) }
    ensures steady { OnOk result (H.start_faults hosts.new ≡ H.start_faults hosts.old) }
    ensures cause { OnErr result (H.start_faults hosts.old < H.start_faults hosts.new) }
    ensures no_fall { H.start_faults hosts.old ≤ H.start_faults hosts.new }
    ensures other_count { H.stop_faults hosts.new ≡ H.stop_faults hosts.old }
    ensures reached { H.reached hosts.new ≡ H.reached hosts.old }
{
    for core in cores {
        hosts.start_core(core.node, core.core.as_str())?;
    }
    Ok(())
}

/// Stops each of the cores, in order; where stopping one fails the others are stopped still. Tells the place of the first that failed.
pub fn stop_cores<H: Hosts>(hosts: &mut H, cores: &[Host]) -> Option<usize>
    ensures stopped { result ≡ None → (all : List Host) → H.started hosts.old ≡ Some all → H.started hosts.new ≡ Some (without_cores cores.now all) }
    ensures steady { result ≡ None → H.stop_faults hosts.new ≡ H.stop_faults hosts.old }
    ensures cause { (at : ℕ) → result ≡ Some at → (at < length cores.now) × (H.stop_faults hosts.old < H.stop_faults hosts.new) }
    ensures each { StopsEach cores.now (H.started hosts.old) (H.started hosts.new) (H.stop_faults hosts.old) (H.stop_faults hosts.new) result }
    ensures no_fall { H.stop_faults hosts.old ≤ H.stop_faults hosts.new }
    ensures other_count { H.start_faults hosts.new ≡ H.start_faults hosts.old }
    ensures reached { H.reached hosts.new ≡ H.reached hosts.old }
{
    let mut failed = None;
    for at in 0..cores.len() {
        let core = &cores[at];
        if hosts.stop_core(core.node, core.core.as_str()).is_err() && failed.is_none() {
            failed = Some(at);
        }
    }
    failed
}
