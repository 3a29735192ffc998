ghost use Rattle.std.specs.Prelude.{◌≡◌, ◌<◌, ◌≤◌, ◌↔◌, IsTrue};
ghost use Rattle.sc_record.specs.Names.{key_of_core};
ghost use Rattle.sc_cluster.specs.declared.slice.State.TheVariants as states;
ghost use Rattle.sc_journal.specs.Down.{is_down};
ghost use Rattle.sc_bucket.specs.Sound.{IsSound};
ghost use Rattle.sc_bucket.specs.Events.{CanDetach, Detaches};

use crate::bucket::Bucket;
use sc_cluster::{Slice, State};
use sc_record::{CoreId, Entry};

impl Bucket {
    /// Whether the core is down. It takes no memory.
    pub fn is_down(&self, core: CoreId) -> bool
        requires { IsSound self.now }
        ensures { result ≡ is_down self.now.journal.entries (key_of_core core) }
    {
        match self.replicas.position(core) {
            Some(at) => self.replicas.get(at).is_down(),
            None => false,
        }
    }

    /// Whether the core can be marked as down: it is a follower of an active slice, is there, and is not down. It takes no memory.
    pub fn can_detach(&self, core: CoreId) -> bool
        requires { IsSound self.now }
        ensures { IsTrue result ↔ CanDetach self.now core }
    {
        match self.map.by_id(core.slice) {
            Some(slice) => may_be_down(slice, core.replica) && !self.is_down(core),
            None => false,
        }
    }

    /// Marks a follower as down: the messages to it leave the flight, and nothing is sent to it from here on. It keeps what it has.
    /// It takes no memory.
    pub fn detach(&mut self, core: CoreId)
        requires sound { IsSound self.old }
        requires can { CanDetach self.old core }
        ensures sound { IsSound self.new }
        ensures detached { Detaches self.old core self.new }
    {
        let at = self.replicas.position(core).unwrap();
        self.replicas.mark_down(at);
        self.flight.leave_out(core);
        self.journal.append(Entry::Down { core });
        self.owed -= 1;
    }
}

// The slice is active, and has this replica beside its leader.
pub(crate) fn may_be_down(slice: &Slice, replica: u8) -> bool
    ensures { IsTrue result ↔ ((slice.now.state ≡ states.Active) × (1 < replica) × (replica ≤ slice.now.replicas)) }
{
    slice.state == State::Active && replica > 1 && replica <= slice.replicas
}
