ghost use Rattle.std.specs.Prelude.{◌≡◌, ◌≢◌, IsSome, false, All};
ghost use Rattle.sc_journal.specs.Journal.{write_at, is_settled};
ghost use Rattle.sc_bucket.specs.Sound.{IsSound};
ghost use Rattle.sc_bucket.specs.Kept.{Sent};
ghost use Rattle.sc_bucket.specs.Events.{Settles, NotesSettled};

use crate::bucket::Bucket;
use sc_record::Entry;

impl Bucket {
    /// Delivers what is in flight of the write at this place, and notes in the journal that it was delivered to every other core that
    /// had to take it, or that the core is gone or down. It takes no memory.
    pub fn settle(&mut self, place: u64)
        requires sound { IsSound self.old }
        requires written { IsSome (write_at self.old.journal.entries place) }
        requires unsettled { is_settled self.old.journal.entries place ≡ false }
        ensures sound { IsSound self.new }
        ensures settled { Settles self.old place self.new }
    {
        while self.deliver(place).is_some() {}
        self.note_settled(place);
    }

    // Puts the entry that settles the write at this place into the journal, once none of its messages is in flight.
    fn note_settled(&mut self, place: u64)
        requires sound { IsSound self.old }
        requires written { IsSome (write_at self.old.journal.entries place) }
        requires unsettled { is_settled self.old.journal.entries place ≡ false }
        requires delivered { All (λ (message : Sent). message.place ≢ place) self.old.flight.messages }
        ensures sound { IsSound self.new }
        ensures noted { NotesSettled self.old place self.new }
    {
        self.journal.append(Entry::Settled { place });
        self.unsettled.remove(place);
        self.owed -= 1;
    }
}
