//! The steps of a split on the board, each in one hold.

ghost use Rattle.std.specs.Prelude.{◌≡◌, ◌<◌, [], ◌∷◌, ◌++◌, length, IfOk, IfErr};
ghost use Rattle.sc_record.specs.declared.slice.SliceId.{SliceId};
ghost use Rattle.sc_cluster.specs.Slices.{forming};
ghost use Rattle.sc_cluster.specs.Map.{IsMap};
ghost use Rattle.sc_seen.specs.Board.{MayNote};
ghost use Rattle.sc_board.specs.Splits.{IsCut, asked_for};
ghost use Rattle.sc_collection.specs.Desks.{OwnsSplit, AreAtRest, StillFit};
ghost use Rattle.sc_collection.specs.Kept.{trail_room};
ghost use Rattle.sc_collection.specs.Resting.{Rests, looked_at, LeavesAtRest};
ghost use Rattle.sc_split.specs.Steps.{NotesOne, Opens, Refuses};
ghost use Rattle.sc_split.specs.Leaving.{LeavesDesk};

use sc_board::{BoardFault, Cut};
use sc_cluster::SplitPlan;
use sc_collection::{BoardEntry, Desk, Stop, Trail};
use std::alloc::Global;

/// Begins a split on the board, and keeps that stop. The keepers of all buckets come with it.
pub(crate) fn open<D: Desk>(
    alloc: Global,
    desk: &mut D,
    trail: &mut Trail,
    shard: &str,
    cut: &Cut,
) -> Result<(SplitPlan, D::Keepers), BoardFault>
    requires rest { Rests D.Desk desk.old }
    requires cut { IsCut cut.now }
    requires room { length trail.old.stops < trail_room }
    ensures leaves { LeavesAtRest D.Desk desk.old trail.old desk.new trail.new }
    ensures opened { IfOk result (λ begun.
        (opens : Opens (D.layout desk.old) (asked_for shard.now cut.now) (looked_at D.Desk desk.old trail.old) (looked_at D.Desk desk.new trail.new) begun.0)
        × D.fits desk.new begun.1 × AreAtRest (D.layout desk.old) opens.between.board (D.keeping desk.new begun.1)) }
    ensures refused { IfErr result (Refuses (D.layout desk.old) (asked_for shard.now cut.now) (looked_at D.Desk desk.old trail.old) (looked_at D.Desk desk.new trail.new)) }
{
    let mut board = desk.hold_board();
    let place = board.entries();
    let answer = board.begin_split(alloc, shard, cut);
    desk.give_board(board);
    trail.keep(Stop {
        lock: desk.buckets(),
        place,
        made: answer.is_ok(),
    });
    answer
}

/// Notes on the board that the leaders of the subs are made.
pub(crate) fn note_recovering<D: Desk>(desk: &mut D)
    requires rest { Rests D.Desk desk.old }
    requires owns { OwnsSplit (D.layout desk.old) (D.seen desk.old) }
    requires may { (parent : SliceId) × MayNote (D.layout desk.old).first (D.seen desk.old).board (BoardEntry.Recovering parent) }
    ensures leaves { LeavesDesk D.Desk desk.old desk.new }
    ensures noted { (parent : SliceId) → MayNote (D.layout desk.old).first (D.seen desk.old).board (BoardEntry.Recovering parent)
        → NotesOne (D.layout desk.old) (BoardEntry.Recovering parent) (D.seen desk.old) (D.seen desk.new) }
    ensures keepers { (keepers : D.Keepers) → D.fits desk.old keepers
        → StillFit (D.fits desk.new keepers) (D.keeping desk.old keepers) (D.keeping desk.new keepers) }
{
    let mut board = desk.hold_board();
    board.recovering();
    desk.give_board(board);
}

/// Notes on the board that the split is done, and gives it the keepers back.
pub(crate) fn note_done<D: Desk>(desk: &mut D, keepers: D::Keepers)
    requires rest { Rests D.Desk desk.old }
    requires owns { OwnsSplit (D.layout desk.old) (D.seen desk.old) }
    requires fits { D.fits desk.old keepers }
    requires may { (parent : SliceId) × MayNote (D.layout desk.old).first (D.seen desk.old).board (BoardEntry.Done parent)
        × AreAtRest (D.layout desk.old) ((D.seen desk.old).board ++ BoardEntry.Done parent ∷ []) (D.keeping desk.old keepers) }
    ensures leaves { LeavesDesk D.Desk desk.old desk.new }
    ensures noted { (parent : SliceId) → MayNote (D.layout desk.old).first (D.seen desk.old).board (BoardEntry.Done parent)
        → NotesOne (D.layout desk.old) (BoardEntry.Done parent) (D.seen desk.old) (D.seen desk.new) }
{
    let mut board = desk.hold_board();
    board.done(keepers);
    desk.give_board(board);
}

/// Notes on the board that the split failed, and gives it the keepers back.
pub(crate) fn note_failed<D: Desk>(desk: &mut D, keepers: D::Keepers)
    requires rest { Rests D.Desk desk.old }
    requires owns { OwnsSplit (D.layout desk.old) (D.seen desk.old) }
    requires fits { D.fits desk.old keepers }
    requires may { (parent : SliceId) × MayNote (D.layout desk.old).first (D.seen desk.old).board (BoardEntry.Failed parent)
        × AreAtRest (D.layout desk.old) ((D.seen desk.old).board ++ BoardEntry.Failed parent ∷ []) (D.keeping desk.old keepers) }
    ensures leaves { LeavesDesk D.Desk desk.old desk.new }
    ensures noted { (parent : SliceId) → MayNote (D.layout desk.old).first (D.seen desk.old).board (BoardEntry.Failed parent)
        → NotesOne (D.layout desk.old) (BoardEntry.Failed parent) (D.seen desk.old) (D.seen desk.new) }
    ensures first_map { IsMap (D.layout desk.old).first }
    ensures first_idle { forming (D.layout desk.old).first ≡ [] }
{
    let mut board = desk.hold_board();
    board.failed(keepers);
    desk.give_board(board);
}
