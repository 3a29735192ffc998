ghost use Rattle.std.specs.Prelude.{◌≡◌, [], Some};
ghost use Rattle.sc_bucket.specs.Events.{NotesFiled};
ghost use Rattle.sc_bucket.specs.Sound.{IsSound};

use crate::bucket::Bucket;

impl Bucket {
    /// From here on the bucket lets no write go before it is said, by `note_filed`, that a log file has it: the file has nothing yet. A
    /// bucket that is new asks no file, and lets each write go once it is committed.
    pub fn await_file(&mut self)
        requires sound { IsSound self.old }
        requires empty { self.old.journal.entries ≡ [] }
        ensures sound { IsSound self.new }
        ensures rest { self.new ≡ record self.old { journal = record self.old.journal { filed = Some 0 } } }
    {
        self.journal.await_file();
    }

    /// The log file has the first `n` entries of the journal: those of their writes that are committed are let go. Where the bucket asks no
    /// file it does nothing. It takes no memory.
    pub fn note_filed(&mut self, n: usize)
        requires sound { IsSound self.old }
        ensures sound { IsSound self.new }
        ensures noted { NotesFiled self.old n self.new }
    {
        self.journal.note_filed(n);
    }
}
