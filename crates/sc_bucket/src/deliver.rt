ghost use Rattle.std.specs.Prelude.{◌≡◌, ◌≢◌, ◌<◌, ◌≤◌, length, slice_get, Some, MatchOption, All};
ghost use Rattle.sc_bucket.specs.Kept.{Sent};
ghost use Rattle.sc_bucket.specs.Sound.{IsSound};
ghost use Rattle.sc_bucket.specs.Events.{Delivers, DeliversFirst, DeliversAllTo};

use crate::bucket::Bucket;
use sc_record::CoreId;

impl Bucket {
    /// Delivers the first message in flight of the write at this place of the journal, and reports to which core. None exactly
    /// where none of them is in flight; then nothing changes. It takes no memory.
    pub fn deliver(&mut self, place: u64) -> Option<CoreId>
        requires sound { IsSound self.old }
        ensures sound { IsSound self.new }
        ensures delivered { MatchOption result
            ((self.new ≡ self.old) × All (λ (message : Sent). message.place ≢ place) self.old.flight.messages)
            (λ core. DeliversFirst self.old place core self.new) }
    {
        let at = self.flight.first_of(place)?;
        Some(self.deliver_at(at))
    }

    /// Delivers the message at place k of the flight, from 0, and reports to which core. None exactly where k + 1 or more are
    /// not in flight; then nothing changes. It takes no memory.
    pub fn deliver_nth(&mut self, k: usize) -> Option<CoreId>
        requires sound { IsSound self.old }
        ensures sound { IsSound self.new }
        ensures delivered { MatchOption result ((self.new ≡ self.old) × (length self.old.flight.messages ≤ k))
            (λ core. (message : Sent) × Delivers self.old k message self.new × (message.core ≡ core)) }
    {
        if k >= self.flight.len() {
            return None;
        }
        Some(self.deliver_at(k))
    }

    /// Delivers all that is in flight to this core, in the order of sending. It takes no memory.
    pub fn deliver_all_to(&mut self, core: CoreId)
        requires sound { IsSound self.old }
        ensures sound { IsSound self.new }
        ensures delivered { DeliversAllTo self.old core self.new }
    {
        while let Some(at) = self.flight.first_to(core) {
            self.deliver_at(at);
        }
    }

    // Delivers the message at this place of the flight, and reports to which core.
    pub(crate) fn deliver_at(&mut self, at: usize) -> CoreId
        requires sound { IsSound self.old }
        requires within { at < length self.old.flight.messages }
        ensures sound { IsSound self.new }
        ensures delivered { (message : Sent) × Delivers self.old at message self.new × (message.core ≡ result) }
    {
        let message = self.flight.take(at);
        let core = self.replicas.position(message.core).unwrap();
        self.replicas.receive(core, message.write);
        message.core
    }
}
