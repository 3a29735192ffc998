ghost use Rattle.std.specs.Prelude.{◌≡◌, ℕ, ◌<◌, ◌≤◌, List, Option, Some, IfSome, OnOk, OnErr};
ghost use Rattle.sc_io.specs.Hosts.{with_core, without_core, Reached, FailsToReach};

use crate::fault::Failed;
use sc_record::Text;

/// A core that is started on a node.
#[derive(Debug, Drop)]
pub struct Host {
    /// The node, from 1.
    pub node: u32,
    /// The core's name, as `docs_shard1_replica_n1`.
    pub core: Text,
}

/// What starts and stops the cores of a collection, and says whether a node can be reached: the machine's folders, a list in
/// memory.
pub trait Hosts {
    ghost use Rattle.sc_io.specs.declared.hosts.Host.{Host};
    ghost use Rattle.sc_io.specs.Hosts.{Reached};

    /// The cores that are started, where it reports them.
    ghost started: { Self → Option (List Host) };

    /// How often starting a core has failed.
    ghost start_faults: { Self → ℕ };

    /// How often stopping a core has failed.
    ghost stop_faults: { Self → ℕ };

    /// How often reaching a node has failed, and the nodes that weren't reached, in order, where it reports them.
    ghost reached: { Self → Reached };

    /// Starts a core on a node, counted from 1. One that is started stays so. After a call that failed it may be called again.
    fn start_core(&mut self, node: u32, core: &str) -> Result<(), Failed>
        ensures whole { OnOk result (IfSome (started self.old)
            (λ cores. started self.new ≡ Some (with_core node core.now cores))) }
        ensures failed { OnErr result (started self.new ≡ started self.old) }
        ensures steady { OnOk result (start_faults self.new ≡ start_faults self.old) }
        ensures cause { OnErr result (start_faults self.old < start_faults self.new) }
        ensures no_fall { start_faults self.old ≤ start_faults self.new }
        ensures other_count { stop_faults self.new ≡ stop_faults self.old }
        ensures reached { reached self.new ≡ reached self.old };

    /// Stops a core on a node, counted from 1. One that isn't started stays so. After a call that failed it may be called again.
    fn stop_core(&mut self, node: u32, core: &str) -> Result<(), Failed>
        ensures whole { OnOk result (IfSome (started self.old)
            (λ cores. started self.new ≡ Some (without_core node core.now cores))) }
        ensures failed { OnErr result (started self.new ≡ started self.old) }
        ensures steady { OnOk result (stop_faults self.new ≡ stop_faults self.old) }
        ensures cause { OnErr result (stop_faults self.old < stop_faults self.new) }
        ensures no_fall { stop_faults self.old ≤ stop_faults self.new }
        ensures other_count { start_faults self.new ≡ start_faults self.old }
        ensures reached { reached self.new ≡ reached self.old };

    /// Asks whether a node, counted from 1, can be reached. An error means that it can't, or that it can't be told; nothing is said
    /// of any later call, which may come out otherwise.
    fn reach(&mut self, node: u32) -> Result<(), Failed>
        ensures cores { started self.new ≡ started self.old }
        ensures starts { start_faults self.new ≡ start_faults self.old }
        ensures stops { stop_faults self.new ≡ stop_faults self.old }
        ensures reached { OnOk result (reached self.new ≡ reached self.old) }
        ensures failed { OnErr result (FailsToReach node (reached self.old) (reached self.new)) };
}
