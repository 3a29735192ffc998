//! A board that begins with a journal that was kept, and the keepers that are put into it.

ghost use Rattle.std.specs.Prelude.{◌≡◌, ◌<◌, ◌≤◌, ◌-◌, [], ◌∷◌, ◌++◌, Some, None, All, count_by, IfOk, OnOk};
ghost use Rattle.sc_cluster.specs.declared.slice.State.TheVariants as states;
ghost use Rattle.sc_cluster.specs.declared.slice.Slice.{Slice};
ghost use Rattle.sc_cluster.specs.Limits.{most_slices};
ghost use Rattle.sc_cluster.specs.Slices.{greatest_id, is_inactive};
ghost use Rattle.sc_journal.specs.Limits.{greatest_journal};
ghost use Rattle.sc_seen.specs.Board.{MayNote, IsLegalBoard, running_split, after_entry, BoardHasRoom};
ghost use Rattle.sc_board.specs.Boards.{IsSoundBoard};
ghost use Rattle.sc_board.specs.Leaders.{leaders_after};
ghost use Rattle.sc_board.specs.Events.{Notes};
ghost use Rattle.sc_board.specs.Restored.{IsFollowing};

use crate::board::Board;
use sc_cluster::{ClusterMap, Slice, State};
use sc_record::List;
use sc_seen::BoardEntry;
use std::alloc::{AllocError, Global};

impl Board<()> {
    /// A board with this journal, whose first map is this; no keepers are in it yet. Its journal may have `limit` entries. The time is
    /// that of one walk of the journal. An error means out of memory; the journal is gone then.
    pub fn restored(
        alloc: Global,
        first: ClusterMap,
        limit: u64,
        journal: List<BoardEntry>,
    ) -> Result<Board<()>, AllocError>
        requires active { All (λ (slice : Slice). slice.state ≡ states.Active) first }
        requires ids { greatest_id first < most_slices }
        requires limit { limit ≤ greatest_journal }
        requires legal { IsLegalBoard first journal }
        requires idle { running_split journal ≡ None }
        requires room { BoardHasRoom 0 limit first journal }
        ensures sound { IfOk result IsSoundBoard }
        ensures first { IfOk result (λ board. board.first ≡ first) }
        ensures limit { IfOk result (λ board. board.limit ≡ limit) }
        ensures journal { IfOk result (λ board. board.journal.entries ≡ journal) }
        ensures keepers { IfOk result (λ board. board.keepers ≡ Some tt) }
    {
        let mut board = Board::new(alloc, first, limit, ())?;
        board.journal.reserve(journal.len())?;
        for one in journal.into_vec() {
            board.follow(alloc, one)?;
        }
        board.owed = inactive_slices(&board.map);
        board.journal.reserve(board.owed as usize)?;
        Ok(board)
    }

    /// The board with the keepers of all buckets in it, while no split runs.
    pub fn with_keepers<K: Drop>(self, keepers: K) -> Board<K>
        requires sound { IsSoundBoard self }
        requires idle { running_split self.journal.entries ≡ None }
        ensures sound { IsSoundBoard result }
        ensures first { result.first ≡ self.first }
        ensures limit { result.limit ≡ self.limit }
        ensures journal { result.journal ≡ self.journal }
        ensures keepers { result.keepers ≡ Some keepers }
    {
        Board {
            first: self.first,
            map: self.map,
            leaders: self.leaders,
            journal: self.journal,
            limit: self.limit,
            owed: self.owed,
            keepers: Some(keepers),
        }
    }

    // Takes the next entry of a journal that was kept, in the room that there is.
    fn follow(&mut self, alloc: Global, one: BoardEntry) -> Result<(), AllocError>
        requires follows { IsFollowing self.old }
        requires may { MayNote self.old.first self.old.journal.entries one }
        requires room { 0 < self.old.journal.room }
        ensures follows { OnOk result (IsFollowing self.new) }
        ensures noted { OnOk result (Notes self.old one self.new) }
        ensures room { OnOk result (self.new.journal.room ≡ self.old.journal.room - 1) }
        ensures keepers { OnOk result (self.new.keepers ≡ self.old.keepers) }
    {
        self.change(alloc, &one)?;
        self.journal.append(one);
        Ok(())
    }

    // Changes the map and the leaders as the entry says, and nothing else.
    fn change(&mut self, alloc: Global, one: &BoardEntry) -> Result<(), AllocError>
        requires follows { IsFollowing self.old }
        requires may { MayNote self.old.first self.old.journal.entries one.now }
        ensures map { OnOk result (self.new.map ≡ after_entry self.old.map one.now) }
        ensures leaders { OnOk result (self.new.leaders ≡ leaders_after self.old.first (self.old.journal.entries ++ one.now ∷ [])) }
        ensures others { self.new ≡ record self.old { map = self.new.map; leaders = self.new.leaders } }
    {
        match one {
            BoardEntry::Begun { plan } => {
                self.leaders = self.leaders.with_first(alloc, plan.subs.len())?;
                self.map.begin(plan)?;
                Ok(())
            }
            BoardEntry::Recovering { parent } => {
                self.map.recovering(*parent);
                Ok(())
            }
            BoardEntry::Done { parent } => {
                self.map.switched(*parent);
                Ok(())
            }
            BoardEntry::Failed { parent } => {
                self.map.failed(*parent);
                self.leaders.cut(self.map.len());
                Ok(())
            }
            BoardEntry::Dropped { slice } => {
                let at = self.place_of(*slice).unwrap();
                self.leaders.remove(at);
                self.map.dropped(*slice);
                Ok(())
            }
            BoardEntry::Led { slice, replica } => {
                let at = self.place_of(*slice).unwrap();
                self.leaders.set(at, *replica);
                Ok(())
            }
        }
    }
}

// The slice's subs have taken its place.
fn is_inactive(slice: &Slice) -> bool
    ensures { result ≡ is_inactive slice.now }
{
    matches!(slice.state, State::Inactive)
}

// How many slices are inactive.
fn inactive_slices(map: &ClusterMap) -> u64
    ensures { result ≡ count_by is_inactive map.now }
{
    let mut count = 0;
    for at in 0..map.len() {
        if is_inactive(map.get(at).unwrap()) {
            count += 1;
        }
    }
    count
}
