//! A split ends in all buckets, one bucket after another. Nothing of it can fail.

ghost use Rattle.std.specs.Prelude.{◌≤◌, ℕ};
ghost use mathlib.Core.List.{IsPrefix};
ghost use Rattle.sc_collection.specs.Known.{OfBuckets, IsSameIn};
ghost use Rattle.sc_split.specs.Stages.{OpenSplit, IsOpenIn, IsAtStage, IsDoneIn, IsFailedIn, whole};
ghost use Rattle.sc_split.specs.Leaving.{known, RestsWith, HoldsBuckets};

use crate::bucket::{abort_in, switch_in};
use sc_collection::Desk;

/// Switches each bucket.
pub(crate) fn switch_all<D: Desk>(desk: &mut D, keepers: &mut D::Keepers)
    requires rests { RestsWith D.Desk desk.old keepers.old }
    requires stage { (split : OpenSplit) × OfBuckets 0 (D.layout desk.old).buckets (IsAtStage split (whole split.plan)
        (known D.Desk desk.old keepers.old)) }
    ensures leaves { HoldsBuckets D.Desk desk.old keepers.old desk.new keepers.new }
    ensures went_on { (lock : ℕ) → IsPrefix ((D.seen desk.old).journals lock) ((D.seen desk.new).journals lock) }
    ensures switched { (split : OpenSplit) → OfBuckets 0 (D.layout desk.old).buckets (IsAtStage split (whole split.plan)
        (known D.Desk desk.old keepers.old))
        → OfBuckets 0 (D.layout desk.old).buckets (IsDoneIn split (known D.Desk desk.new keepers.new)) }
{
    for b in 0..desk.buckets() {
        switch_in(desk, keepers, b);
    }
}

/// Gives the split up in the first buckets, so many of them, in which it has begun.
pub(crate) fn abort_all<D: Desk>(desk: &mut D, keepers: &mut D::Keepers, begun: u32)
    requires rests { RestsWith D.Desk desk.old keepers.old }
    requires count { begun ≤ (D.layout desk.old).buckets }
    requires opened { (split : OpenSplit) × OfBuckets 0 begun (IsOpenIn split (known D.Desk desk.old keepers.old)) }
    ensures leaves { HoldsBuckets D.Desk desk.old keepers.old desk.new keepers.new }
    ensures went_on { (lock : ℕ) → IsPrefix ((D.seen desk.old).journals lock) ((D.seen desk.new).journals lock) }
    ensures failed { (split : OpenSplit) → OfBuckets 0 begun (IsOpenIn split (known D.Desk desk.old keepers.old))
        → OfBuckets 0 begun (IsFailedIn split (known D.Desk desk.new keepers.new)) }
    ensures others { OfBuckets begun (D.layout desk.old).buckets (IsSameIn
        (known D.Desk desk.old keepers.old)
        (known D.Desk desk.new keepers.new)) }
{
    for b in 0..begun {
        abort_in(desk, keepers, b);
    }
}
