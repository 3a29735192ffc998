//! A replica is noted as the leader of its slice.

ghost use Rattle.std.specs.Prelude.{◌≡◌, ◌≢◌, ◌≤◌, ◌+◌, Some, All, IfOk, IfErr, OnOk, MatchOption, slice_get};
ghost use Rattle.sc_cluster.specs.declared.slice.Slice.{Slice};
ghost use Rattle.sc_seen.specs.Board.{MayNote, BoardHasRoom};
ghost use Rattle.sc_board.specs.Boards.{IsSoundBoard};
ghost use Rattle.sc_board.specs.Leaders.{leaders_after};
ghost use Rattle.sc_board.specs.Leads.{PreventsLead, IsLeadRefusal, MayBeLed};
ghost use Rattle.sc_board.specs.Splits.{board_basis};
ghost use Rattle.sc_board.specs.Events.{Notes, IsSameBoardButRoom};
ghost use Rattle.sc_board.specs.declared.fault.LeadFault.{LeadFault};

use crate::board::Board;
use crate::fault::LeadFault;
use sc_cluster::State;
use sc_record::{List, SliceId};
use sc_seen::BoardEntry;
use std::alloc::Global;

impl<K: Drop> Board<K> {
    /// The replica that leads each slice of the board's map, in its order, as the board has it noted: the first one where it noted
    /// none. Replicas are counted from 1.
    pub fn leaders(&self) -> &List<u8>
        requires { IsSoundBoard self.now }
        ensures { result.now ≡ leaders_after self.now.first self.now.journal.entries }
    {
        self.leaders.as_list()
    }

    /// The active slice of this name, of which another leader may be noted while no split runs (Solr Reference Guide, "Shard
    /// Management", FORCELEADER). The first cause of a refusal counts, in the order of `LeadFault`. The board stays as it was, but
    /// for room in memory: there is some for the entry then, beside those that are owed.
    pub fn check_lead(&mut self, alloc: Global, shard: &str) -> Result<SliceId, LeadFault>
        requires { IsSoundBoard self.old }
        ensures sound { IsSoundBoard self.new }
        ensures same { IsSameBoardButRoom self.old self.new }
        ensures slice { IfOk result (MayBeLed self.new.first self.new.journal.entries shard.now) }
        ensures room { OnOk result (self.new.owed + 1 ≤ self.new.journal.room) }
        ensures fits { OnOk result (BoardHasRoom 1 self.new.limit self.new.first self.new.journal.entries) }
        ensures allowed { OnOk result ((cause : LeadFault) → ¬ PreventsLead (board_basis self.old) self.old.journal.entries shard.now cause) }
        ensures refused { IfErr result (IsLeadRefusal (board_basis self.old) self.old.journal.entries shard.now) }
    {
        let slice = self.led_slice(shard)?;
        self.journal.reserve(self.owed as usize + 1)?;
        Ok(slice)
    }

    // The active slice of this name, of which another leader may be noted. The board is only read.
    fn led_slice(&self, shard: &str) -> Result<SliceId, LeadFault>
        requires { IsSoundBoard self.now }
        ensures slice { IfOk result (MayBeLed self.now.first self.now.journal.entries shard.now) }
        ensures fits { OnOk result (BoardHasRoom 1 self.now.limit self.now.first self.now.journal.entries) }
        ensures allowed { OnOk result ((cause : LeadFault) → ¬ PreventsLead (board_basis self.now) self.now.journal.entries shard.now cause) }
        ensures refused { IfErr result (IsLeadRefusal (board_basis self.now) self.now.journal.entries shard.now) }
    {
        let Some(slice) = self.named(shard) else {
            return Err(LeadFault::UnknownShard);
        };
        if let Some(shard) = self.running_name()? {
            return Err(LeadFault::Running { shard });
        }
        if slice.state != State::Active {
            return Err(LeadFault::NotActive { state: slice.state });
        }
        if self.limit < self.journal.len() + self.owed + 1 {
            return Err(LeadFault::LogFull);
        }
        Ok(slice.id)
    }

    /// Notes that from here on this replica leads the slice, while no split runs, in the room that `check_lead` made. It takes no
    /// memory.
    pub fn led(&mut self, slice: SliceId, replica: u8)
        requires sound { IsSoundBoard self.old }
        requires can { MayNote self.old.first self.old.journal.entries (BoardEntry.Led slice replica) }
        requires memory { self.old.owed + 1 ≤ self.old.journal.room }
        requires room { BoardHasRoom 1 self.old.limit self.old.first self.old.journal.entries }
        ensures sound { IsSoundBoard self.new }
        ensures noted { Notes self.old (BoardEntry.Led slice replica) self.new }
        ensures keepers { self.new.keepers ≡ self.old.keepers }
    {
        let at = self.place_of(slice).unwrap();
        self.leaders.set(at, replica);
        self.journal.append(BoardEntry::Led { slice, replica });
    }

    /// The place of this slice in the map; None where it isn't there.
    pub(crate) fn place_of(&self, id: SliceId) -> Option<usize>
        ensures { MatchOption result (All (λ (slice : Slice). slice.id ≢ id) self.now.map)
            (λ at. (slice : Slice) × (slice_get self.now.map at ≡ Some slice) × (slice.id ≡ id)) }
    {
        for at in 0..self.map.len() {
            let slice = self.map.get(at).unwrap();
            if slice.id == id {
                return Some(at);
            }
        }
        None
    }
}
