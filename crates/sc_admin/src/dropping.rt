//! A slice is dropped from each bucket, by its keeper, and from the board, which is out of the desk meanwhile.

ghost use Rattle.std.specs.Prelude.{◌≡◌, ◌≢◌, ◌<◌, ℕ, Some, None, IfOk, IfErr, OnErr};
ghost use Rattle.sc_seen.specs.Board.{board_map};
ghost use Rattle.sc_seen.specs.Seen.{AreLegal};
ghost use Rattle.sc_board.specs.Boards.{IsSoundBoard};
ghost use Rattle.sc_board.specs.Drops.{IsDropRefusal};
ghost use Rattle.sc_keeper.specs.Conditions.{MayDrop};
ghost use Rattle.sc_collection.specs.Desks.{IsBoardOf, AreAtRest};
ghost use Rattle.sc_collection.specs.Known.{known_of, OfBuckets, IsSameIn, KeepsBoard};
ghost use Rattle.sc_admin.specs.Dropping.{IsDroppedIn, DropsSlice, with_board};

use sc_board::{Board, DropFault};
use sc_collection::Desk;
use sc_cores::cores_of;
use sc_handover::drop_shard;
use sc_io::Host;
use sc_record::{List, SliceId};
use std::alloc::Global;

/// Drops the slice of this name from each bucket and from the board, which is out of the desk. Reports its cores.
pub(crate) fn drop_slice<D: Desk>(
    alloc: Global,
    desk: &mut D,
    board: &mut Board<D::Keepers>,
    shard: &str,
) -> Result<List<Host>, DropFault>
    requires sound { IsSoundBoard board.old }
    requires is_of { IsBoardOf (D.layout desk.old) board.old.first board.old.limit }
    requires none_out { (D.out desk.old).bucket ≡ None }
    requires legal { AreLegal (D.layout desk.old) (D.seen desk.old) }
    requires rest { (keepers : D.Keepers) → board.old.keepers ≡ Some keepers
        → D.fits desk.old keepers × AreAtRest (D.layout desk.old) board.old.journal.entries (D.keeping desk.old keepers) }
    ensures sound { IsSoundBoard board.new }
    ensures is_of { IsBoardOf (D.layout desk.new) board.new.first board.new.limit }
    ensures layout { D.layout desk.new ≡ D.layout desk.old }
    ensures out { D.out desk.new ≡ D.out desk.old }
    ensures legal { AreLegal (D.layout desk.new) (D.seen desk.new) }
    ensures rest { (keepers : D.Keepers) → board.new.keepers ≡ Some keepers
        → D.fits desk.new keepers × AreAtRest (D.layout desk.new) board.new.journal.entries (D.keeping desk.new keepers) }
    ensures board { KeepsBoard (D.seen desk.old) (D.seen desk.new) }
    ensures dropped { IfOk result (DropsSlice (D.layout desk.old) shard.now
        (with_board (D.seen desk.old) board.old.journal.entries) (with_board (D.seen desk.new) board.new.journal.entries)) }
    ensures refused { IfErr result (IsDropRefusal (board_map (D.layout desk.old).first board.old.journal.entries) shard.now) }
    ensures entries { OnErr result (board.new.journal.entries ≡ board.old.journal.entries) }
    ensures journals { OnErr result ((lock : ℕ) → (D.seen desk.new).journals lock ≡ (D.seen desk.old).journals lock) }
{
    let slice = board.check_drop(shard)?;
    let cores = cores_of(alloc, desk.nodes(), board.map().by_id(slice).unwrap())?;
    drop_all(desk, board.keepers(), slice);
    board.dropped(slice);
    Ok(cores)
}

// Drops the slice from each bucket.
fn drop_all<D: Desk>(desk: &mut D, keepers: &mut D::Keepers, slice: SliceId)
    requires none_out { (D.out desk.old).bucket ≡ None }
    requires legal { AreLegal (D.layout desk.old) (D.seen desk.old) }
    requires fits { D.fits desk.old keepers.old }
    requires may { OfBuckets 0 (D.layout desk.old).buckets (λ b. MayDrop ((D.keeping desk.old keepers.old).part b) slice) }
    ensures layout { D.layout desk.new ≡ D.layout desk.old }
    ensures out { D.out desk.new ≡ D.out desk.old }
    ensures legal { AreLegal (D.layout desk.new) (D.seen desk.new) }
    ensures fits { D.fits desk.new keepers.new }
    ensures board { KeepsBoard (D.seen desk.old) (D.seen desk.new) }
    ensures dropped { OfBuckets 0 (D.layout desk.old).buckets (IsDroppedIn slice
        (known_of (D.seen desk.old) (D.keeping desk.old keepers.old)) (known_of (D.seen desk.new) (D.keeping desk.new keepers.new))) }
{
    for b in 0..desk.buckets() {
        drop_in(desk, keepers, b, slice);
    }
}

// Drops the slice from this bucket, in one hold by its keeper in which nothing else is done.
fn drop_in<D: Desk>(desk: &mut D, keepers: &mut D::Keepers, b: u32, slice: SliceId)
    requires within { b < (D.layout desk.old).buckets }
    requires none_out { (D.out desk.old).bucket ≡ None }
    requires fits { D.fits desk.old keepers.old }
    requires may { MayDrop ((D.keeping desk.old keepers.old).part b) slice }
    ensures layout { D.layout desk.new ≡ D.layout desk.old }
    ensures out { D.out desk.new ≡ D.out desk.old }
    ensures legal { AreLegal (D.layout desk.new) (D.seen desk.new) }
    ensures fits { D.fits desk.new keepers.new }
    ensures board { KeepsBoard (D.seen desk.old) (D.seen desk.new) }
    ensures dropped { IsDroppedIn slice (known_of (D.seen desk.old) (D.keeping desk.old keepers.old))
        (known_of (D.seen desk.new) (D.keeping desk.new keepers.new)) b }
    ensures others { (other : ℕ) → other ≢ b → IsSameIn (known_of (D.seen desk.old) (D.keeping desk.old keepers.old))
        (known_of (D.seen desk.new) (D.keeping desk.new keepers.new)) other }
{
    let mut bucket = desk.hold_keeper(keepers, b);
    drop_shard(&mut bucket, slice);
    desk.give_keeper(keepers, b, bucket);
}
