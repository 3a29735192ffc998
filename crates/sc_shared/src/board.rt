//! The board, as its lock keeps it.
ghost use Rattle.sc_seen.specs.Board.{running_split};
ghost use Rattle.sc_shared.specs.Boards.{BoardName, board_name_of, IsSoundKept, BoardFollows};
ghost use Rattle.sc_board.proofs.OwnedLemmas.{running-inside, running-stays};

use crate::keepers::Keepers;
use crate::numbered::Numbered;
use sc_collection::{Board, BoardEntry, OpenedWith};
use sc_lock::{Badge, Kept};

/// A board with a badge of the lock of each bucket, by its number: the keepers that it has are those of these locks. Beside it stands how
/// many entries each journal had when the collection was opened.
#[derive(Drop)]
pub struct KeptBoard {
    pub board: Board<Keepers>,
    pub badges: Vec<Badge<Numbered>>,
    pub opened: OpenedWith,
}

impl Kept for KeptBoard {
    type Entry = BoardEntry;

    type Part = ();

    ghost Name = { BoardName };

    ghost journal = { λ kept. kept.board.journal.entries };

    ghost sound = { IsSoundKept };

    ghost step = { BoardFollows };

    ghost part = { λ kept. tt };

    ghost name = { board_name_of };

    ghost owned = { running_split };

    fn entries(&self) -> u64 {
        self.board.entries()
    }

    ghost steps_keep_name = { λ old new step. step.name };

    ghost owned_inside = { running-inside };

    ghost owned_stays = { running-stays };
}
