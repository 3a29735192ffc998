//! A slice that was split is dropped.

ghost use Rattle.std.specs.Prelude.{◌≡◌, Some, IfOk, IfErr, OnOk};
ghost use Rattle.sc_seen.specs.Board.{MayNote};
ghost use Rattle.sc_board.specs.Boards.{IsSoundBoard};
ghost use Rattle.sc_board.specs.Splits.{IsOfNamed};
ghost use Rattle.sc_board.specs.Drops.{PreventsDrop, IsDropRefusal};
ghost use Rattle.sc_board.specs.Events.{Notes};
ghost use Rattle.sc_board.specs.declared.fault.DropFault.{DropFault};

use crate::board::Board;
use crate::fault::DropFault;
use sc_cluster::State;
use sc_record::SliceId;
use sc_seen::BoardEntry;

impl<K: Drop> Board<K> {
    /// The inactive slice of this name, which may be dropped while no split runs (Solr Reference Guide, "Shard Management",
    /// DELETESHARD). The first cause of a refusal counts, in the order of `DropFault`. The board is only read.
    pub fn check_drop(&self, shard: &str) -> Result<SliceId, DropFault>
        requires { IsSoundBoard self.now }
        ensures slice { IfOk result (λ id. IsOfNamed self.now.map shard.now (λ slice. slice.id ≡ id)) }
        ensures may { IfOk result (λ id. MayNote self.now.first self.now.journal.entries (BoardEntry.Dropped id)) }
        ensures allowed { OnOk result ((cause : DropFault) → ¬ PreventsDrop self.now.map shard.now cause) }
        ensures refused { IfErr result (IsDropRefusal self.now.map shard.now) }
    {
        let Some(slice) = self.named(shard) else {
            return Err(DropFault::UnknownShard);
        };
        if let Some(shard) = self.running_name()? {
            return Err(DropFault::Running { shard });
        }
        match slice.state {
            State::Inactive => Ok(slice.id),
            state => Err(DropFault::NotInactive { state }),
        }
    }

    /// Notes that an inactive slice is gone, while no split runs. It takes no memory.
    pub fn dropped(&mut self, slice: SliceId)
        requires sound { IsSoundBoard self.old }
        requires can { MayNote self.old.first self.old.journal.entries (BoardEntry.Dropped slice) }
        ensures sound { IsSoundBoard self.new }
        ensures noted { Notes self.old (BoardEntry.Dropped slice) self.new }
        ensures keepers { self.new.keepers ≡ self.old.keepers }
    {
        let at = self.place_of(slice).unwrap();
        self.leaders.remove(at);
        self.map.dropped(slice);
        self.owed -= 1;
        self.journal.append(BoardEntry::Dropped { slice });
    }
}
