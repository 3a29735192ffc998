ghost use Rattle.std.specs.Prelude.{◌≡◌, ◌≢◌, ◌≤◌, ◌↔◌, false, map, IsTrue, IsFalse, MatchOption, All, Contains};
ghost use Rattle.sc_record.specs.Names.{key_of_core};
ghost use Rattle.sc_cluster.specs.declared.slice.Slice.{Slice};
ghost use Rattle.sc_cluster.specs.Slices.{node_of};
ghost use Rattle.sc_replica.specs.Core.{Core};
ghost use Rattle.sc_journal.specs.Down.{is_down};
ghost use Rattle.sc_journal.specs.Seats.{seats};
ghost use Rattle.sc_bucket.specs.Kept.{Sent};
ghost use Rattle.sc_bucket.specs.Flight.{is_for};
ghost use Rattle.sc_bucket.specs.Sound.{IsSound};
ghost use Rattle.sc_bucket.specs.Events.{CanDetach};
ghost use Rattle.sc_bucket.specs.Targets.{IsTarget, DeliversTo};

use crate::bucket::Bucket;
use crate::detach::may_be_down;
use sc_record::CoreId;

/// Where the next message of a write goes.
#[derive(Clone, Copy, Debug)]
pub struct Target {
    /// The core to which it is sent, by its seat.
    pub core: CoreId,
    /// The node of the core that sits there, counted from 1.
    pub node: u32,
    /// Whether the core is a follower that may be marked as down.
    pub follower: bool,
}

impl Target {
    /// The two are of one core, on one node, and both or neither may be marked as down.
    pub fn is_same(&self, other: &Target) -> bool
        ensures { IsTrue result ↔ (self.now ≡ other.now) }
    {
        self.core == other.core && self.node == other.node && self.follower == other.follower
    }
}

impl Bucket {
    /// Where the first message in flight of the write at this place of the journal goes, in a cluster of so many nodes. None exactly
    /// where none of them is in flight. It looks for the core once, and takes no memory.
    pub fn next_core(&self, place: u64, nodes: u32) -> Option<Target>
        requires sound { IsSound self.now }
        requires nodes { 1 ≤ nodes }
        ensures { MatchOption result (All (λ (message : Sent). message.place ≢ place) self.now.flight.messages) (IsTarget self.now place nodes) }
    {
        let at = self.flight.first_of(place)?;
        Some(self.target(self.flight.as_slice()[at].core, nodes))
    }

    /// Delivers the message of the write at this place of the journal to this core, and says whether one was in flight to it; where none
    /// was, nothing changes. It takes no memory.
    pub fn deliver_to(&mut self, place: u64, core: CoreId) -> bool
        requires sound { IsSound self.old }
        ensures sound { IsSound self.new }
        ensures delivered { IsTrue result → DeliversTo self.old place core self.new }
        ensures same { IsFalse result → self.new ≡ self.old }
        ensures none { IsFalse result → All (λ (message : Sent). is_for place core message ≡ false) self.old.flight.messages }
    {
        match self.flight.first_for(place, core) {
            Some(at) => {
                self.deliver_at(at);
                true
            }
            None => false,
        }
    }

    // The core of this name, which is there and not down, and the node of the core that sits in that seat.
    fn target(&self, core: CoreId, nodes: u32) -> Target
        requires sound { IsSound self.now }
        requires there { Contains (map (λ (core : Core). core.core) self.now.replicas) core }
        requires up { is_down self.now.journal.entries (key_of_core core) ≡ false }
        requires nodes { 1 ≤ nodes }
        ensures core { result.core ≡ core }
        ensures node { (slice : Slice) → Contains self.now.map slice → slice.id ≡ core.slice
            → result.node ≡ node_of slice.node (seats self.now.journal.entries slice.id core.replica) nodes }
        ensures follows { IsTrue result.follower ↔ CanDetach self.now core }
    {
        let slice = self.map.by_id(core.slice).unwrap();
        let replica = self.replicas.get(self.replicas.position(core).unwrap());
        Target {
            core,
            node: slice.node_of(replica.number(), nodes),
            follower: may_be_down(slice, core.replica),
        }
    }
}
