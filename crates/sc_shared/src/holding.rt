//! How a thread takes one bucket and gives it back, by its pass or by the bucket's keeper. The bucket stays in its slot here.
ghost use Rattle.std.specs.Prelude.{◌≡◌, ◌<◌, length};
ghost use Rattle.sc_bucket.specs.Sound.{IsSound};
ghost use Rattle.sc_bucket.specs.Events.{IsStep};
ghost use Rattle.sc_handover.specs.AnyEvent.{IsKeeperEvent};
ghost use Rattle.sc_lock.specs.Tokens.{handed};
ghost use Rattle.sc_collection.specs.Desks.{IsBucketOf};
ghost use Rattle.sc_shared.specs.Buckets.{name_of};
ghost use Rattle.sc_shared.specs.Collections.{layout_of, bucket_name, AreOfLocks};
ghost use Rattle.sc_shared.specs.Holding.{Hands, IsFreeAt, IsTurnAtPass, HasKeeperAt, IsFreeKeeperAt, IsTurnAtKeeper, ExtendsPassAt, IsHeld, IsGiven, IsHeldByKeeper, IsGivenByKeeper};

use crate::collection::Collection;
use crate::keepers::Keepers;
use crate::numbered::Numbered;
use crate::passes::Passes;
use sc_collection::FullSlot;
use sc_lock::Turn;
use std::sync::Wait;

/// Waits for the bucket of this number, and takes it with its turn.
pub(crate) fn hold_bucket<R: Wait>(
    rt: &R,
    collection: &Collection,
    passes: &mut Passes,
    b: u32,
) -> (FullSlot, Turn<Numbered>)
    requires within { b < length collection.now.buckets }
    requires passes { AreOfLocks collection.now passes.old.buckets.items passes.old.board }
    requires free { IsFreeAt passes.old.buckets.items b }
    ensures { IsHeld collection.now b passes.old passes.new result.0 result.1 }
{
    let at = b as usize;
    let lock = &collection.locks[at];
    let (kept, turn) = lock.hold(rt, &mut passes.buckets[at]);
    let Numbered {
        number: _,
        buckets: _,
        bucket,
    } = kept;
    (bucket, turn)
}

/// Gives back the bucket of this number, which was taken with the turn.
pub(crate) fn give_bucket(
    collection: &Collection,
    passes: &mut Passes,
    turn: Turn<Numbered>,
    b: u32,
    bucket: FullSlot,
)
    requires within { b < length collection.now.buckets }
    requires passes { AreOfLocks collection.now passes.old.buckets.items passes.old.board }
    requires turn { IsTurnAtPass passes.old.buckets.items b turn }
    requires name { name_of (handed turn) ≡ bucket_name (layout_of collection.now) b }
    requires sound { IsSound bucket }
    requires is_of { IsBucketOf (layout_of collection.now) b bucket }
    requires step { IsStep (handed turn).bucket bucket }
    ensures { IsGiven collection.now b passes.old passes.new turn bucket }
{
    let at = b as usize;
    let kept = Numbered {
        number: b,
        buckets: collection.locks.len() as u32,
        bucket,
    };
    let lock = &collection.locks[at];
    lock.give(&mut passes.buckets[at], turn, kept);
}

/// Waits for the bucket of this number, and takes it for its keeper, with its turn. The keeper learns first what the thread has seen, so
/// that what it finds extends that.
pub(crate) fn hold_by_keeper<R: Wait>(
    rt: &R,
    collection: &Collection,
    passes: &mut Passes,
    keepers: &mut Keepers,
    b: u32,
) -> (FullSlot, Turn<Numbered>)
    requires within { b < length collection.now.buckets }
    requires passes { AreOfLocks collection.now passes.old.buckets.items passes.old.board }
    requires free { IsFreeAt passes.old.buckets.items b }
    requires keeper { HasKeeperAt collection.now keepers.old.keepers.items b }
    requires keeper_free { IsFreeKeeperAt keepers.old.keepers.items b }
    ensures { IsHeldByKeeper collection.now b (record { passes = passes.old; keepers = keepers.old.keepers.items })
        (record { passes = passes.new; keepers = keepers.new.keepers.items }) result.0 result.1 }
{
    let at = b as usize;
    let lock = &collection.locks[at];
    let keeper = &mut keepers.keepers[at];
    lock.show(&mut passes.buckets[at], keeper);
    let (kept, turn) = lock.hold_keeper(rt, keeper);
    let Numbered {
        number: _,
        buckets: _,
        bucket,
    } = kept;
    (bucket, turn)
}

/// Gives back the bucket of this number, which its keeper took with the turn. The thread has then seen what the keeper made.
pub(crate) fn give_by_keeper(
    collection: &Collection,
    passes: &mut Passes,
    keepers: &mut Keepers,
    turn: Turn<Numbered>,
    b: u32,
    bucket: FullSlot,
)
    requires within { b < length collection.now.buckets }
    requires passes { AreOfLocks collection.now passes.old.buckets.items passes.old.board }
    requires free { IsFreeAt passes.old.buckets.items b }
    requires extends { ExtendsPassAt passes.old.buckets.items b turn }
    requires keeper { HasKeeperAt collection.now keepers.old.keepers.items b }
    requires turn { IsTurnAtKeeper keepers.old.keepers.items b turn }
    requires name { name_of (handed turn) ≡ bucket_name (layout_of collection.now) b }
    requires sound { IsSound bucket }
    requires is_of { IsBucketOf (layout_of collection.now) b bucket }
    requires event { IsKeeperEvent (handed turn).bucket bucket }
    ensures { IsGivenByKeeper collection.now b (record { passes = passes.old; keepers = keepers.old.keepers.items })
        (record { passes = passes.new; keepers = keepers.new.keepers.items }) turn bucket }
{
    let at = b as usize;
    let kept = Numbered {
        number: b,
        buckets: collection.locks.len() as u32,
        bucket,
    };
    let lock = &collection.locks[at];
    let keeper = &mut keepers.keepers[at];
    lock.give_keeper(keeper, turn, kept);
    lock.meet(&mut passes.buckets[at], keeper);
}
