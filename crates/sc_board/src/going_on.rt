//! A split goes on and ends. None of these calls takes memory.

ghost use Rattle.std.specs.Prelude.{◌≡◌, Some};
ghost use Rattle.sc_record.specs.declared.slice.SliceId.{SliceId};
ghost use Rattle.sc_seen.specs.Board.{MayNote};
ghost use Rattle.sc_board.specs.Boards.{IsSoundBoard};
ghost use Rattle.sc_board.specs.Events.{Notes};

use crate::board::Board;
use sc_record::SliceId;
use sc_seen::BoardEntry;

impl<K: Drop> Board<K> {
    /// Notes that the slices that the split makes have all documents: the split has begun, and nothing came of it since.
    pub fn recovering(&mut self)
        requires sound { IsSoundBoard self.old }
        requires can { (parent : SliceId) × MayNote self.old.first self.old.journal.entries (BoardEntry.Recovering parent) }
        ensures sound { IsSoundBoard self.new }
        ensures noted { (parent : SliceId) → MayNote self.old.first self.old.journal.entries (BoardEntry.Recovering parent)
            → Notes self.old (BoardEntry.Recovering parent) self.new }
        ensures keepers { self.new.keepers ≡ self.old.keepers }
    {
        let parent = self.running().unwrap().parent;
        self.map.recovering(parent);
        self.owed -= 1;
        self.journal.append(BoardEntry::Recovering { parent });
    }

    /// Notes that the slices that the split made took their parent's place, and puts the keepers back: the slices are recovered.
    pub fn done(&mut self, keepers: K)
        requires sound { IsSoundBoard self.old }
        requires can { (parent : SliceId) × MayNote self.old.first self.old.journal.entries (BoardEntry.Done parent) }
        ensures sound { IsSoundBoard self.new }
        ensures noted { (parent : SliceId) → MayNote self.old.first self.old.journal.entries (BoardEntry.Done parent)
            → Notes self.old (BoardEntry.Done parent) self.new }
        ensures keepers { self.new.keepers ≡ Some keepers }
    {
        let parent = self.running().unwrap().parent;
        self.map.switched(parent);
        self.owed -= 1;
        self.journal.append(BoardEntry::Done { parent });
        self.keepers = Some(keepers);
    }

    /// Notes that the split failed, and puts the keepers back: the slices that it was making are gone.
    pub fn failed(&mut self, keepers: K)
        requires sound { IsSoundBoard self.old }
        requires can { (parent : SliceId) × MayNote self.old.first self.old.journal.entries (BoardEntry.Failed parent) }
        ensures sound { IsSoundBoard self.new }
        ensures noted { (parent : SliceId) → MayNote self.old.first self.old.journal.entries (BoardEntry.Failed parent)
            → Notes self.old (BoardEntry.Failed parent) self.new }
        ensures keepers { self.new.keepers ≡ Some keepers }
    {
        let running = self.running().unwrap();
        let parent = running.parent;
        self.map.failed(parent);
        self.leaders.cut(self.map.len());
        self.owed -= running.owed;
        self.journal.append(BoardEntry::Failed { parent });
        self.keepers = Some(keepers);
    }
}
