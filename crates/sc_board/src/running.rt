//! The split that runs.

ghost use Rattle.std.specs.Prelude.{◌≡◌, [], None, fold, IfOk, MatchOption};
ghost use Rattle.sc_cluster.specs.Slices.{forming};
ghost use Rattle.sc_cluster.specs.Changes.{IsBeingSplit};
ghost use Rattle.sc_seen.specs.Board.{running_split, owed_after};
ghost use Rattle.sc_board.specs.Boards.{IsSoundBoard};
ghost use Rattle.sc_board.specs.Splits.{IsRunningOf};

use crate::board::Board;
use sc_record::{SliceId, Text};
use sc_seen::BoardEntry;
use std::alloc::AllocError;

/// The split that runs on a board.
#[derive(Clone, Copy, Debug)]
pub(crate) struct Running {
    pub parent: SliceId,
    /// How many entries of it the board has still to get.
    pub owed: u64,
}

impl<K: Drop> Board<K> {
    /// The split that runs. It began by the last entry, or its slices are recovered since the last entry.
    pub(crate) fn running(&self) -> Option<Running>
        requires { IsSoundBoard self.now }
        ensures { MatchOption result (running_split self.now.journal.entries ≡ None)
            (λ running. IsBeingSplit self.now.map running.parent × (running.owed ≡ fold owed_after 0 self.now.journal.entries)) }
    {
        match self.journal.as_slice().last() {
            Some(BoardEntry::Begun { plan }) => Some(Running {
                parent: plan.parent,
                owed: 3,
            }),
            Some(BoardEntry::Recovering { parent }) => Some(Running {
                parent: *parent,
                owed: 2,
            }),
            Some(BoardEntry::Done { .. }) => None,
            Some(BoardEntry::Failed { .. }) => None,
            Some(BoardEntry::Dropped { .. }) => None,
            Some(BoardEntry::Led { .. }) => None,
            None => None,
        }
    }

    /// The name of the slice that is being split.
    pub(crate) fn running_name(&self) -> Result<Option<Text>, AllocError>
        requires { IsSoundBoard self.now }
        ensures { IfOk result (λ name. MatchOption name (forming self.now.map ≡ []) (IsRunningOf self.now.map)) }
    {
        match self.running() {
            Some(running) => {
                let parent = self.map.by_id(running.parent).unwrap();
                Ok(Some(parent.name.clone()?))
            }
            None => Ok(None),
        }
    }
}
