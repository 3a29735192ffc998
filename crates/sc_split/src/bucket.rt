//! The events of a split in one bucket. Each is one hold by the bucket's keeper, in which nothing else is done: what the keeper knows of
//! the bucket before and after it is the bucket's part.

ghost use Rattle.std.specs.Prelude.{◌≡◌, ◌<◌, ◌++◌, ◌∷◌, [], ℕ, Err, OnOk, OnErr, IsTrue, IsFalse};
ghost use Rattle.sc_record.specs.declared.slice.SliceId.{SliceId};
ghost use Rattle.sc_record.specs.declared.slice.CoreId.{CoreId};
ghost use Rattle.sc_record.specs.declared.entry.Entry.TheVariants as entry;
ghost use Rattle.sc_cluster.specs.declared.slice.Slice.{Slice};
ghost use Rattle.sc_cluster.specs.declared.plan.SplitPlan.{SplitPlan};
ghost use Rattle.sc_journal.specs.Legal.{MayBeSplit};
ghost use Rattle.sc_keeper.specs.declared.part.Part.{Part};
ghost use Rattle.sc_keeper.specs.Conditions.{MayBegin, MayFeed, MayStartReplay, MayReplay, MayBeReady, MayGrow, MaySwitch, MayAbort};
ghost use Rattle.sc_keeper.specs.Events.{PartFeeds, PartStartsReplay, PartReplays, PartGetsReady, PartSwitches};
ghost use Rattle.sc_split.specs.Buckets.{IsAllSeen, KeeperHeld, IsUnderway, HasBegun, HasGrown, IsGivenUp, HasNoRoomFor};
ghost use Rattle.sc_split.specs.Leaving.{known, RestsWith, LeavesWith, HoldsBucket};

use sc_cluster::SplitPlan;
use sc_collection::Desk;
use sc_handover::{
    BeginFault, abort, begin, feed_piece, grow, ready, replay_piece, start_replay, switch,
};
use sc_record::CoreId;
use std::alloc::{AllocError, Global};

/// Begins the split of the plan in this bucket. After an error nothing of the bucket's part was changed.
pub(crate) fn begin_in<D: Desk>(
    alloc: Global,
    desk: &mut D,
    keepers: &mut D::Keepers,
    b: u32,
    plan: &SplitPlan,
) -> Result<(), BeginFault>
    requires within { b < (D.layout desk.old).buckets }
    requires rests { RestsWith D.Desk desk.old keepers.old }
    requires may { MayBegin ((D.keeping desk.old keepers.old).part b) plan.now.parent plan.now.subs }
    ensures leaves { LeavesWith D.Desk desk.old desk.new keepers.new }
    ensures seen { IsAllSeen b (known D.Desk desk.new keepers.new) }
    ensures held { OnOk result (KeeperHeld b (known D.Desk desk.old keepers.old)
        (known D.Desk desk.new keepers.new) (entry.Begun plan.now.parent plan.now.subs ∷ [])) }
    ensures begun { OnOk result (HasBegun ((D.keeping desk.old keepers.old).part b) plan.now ((D.keeping desk.new keepers.new).part b)) }
    ensures looked { OnErr result (KeeperHeld b (known D.Desk desk.old keepers.old)
        (known D.Desk desk.new keepers.new) []) }
    ensures refused { OnErr result ((D.keeping desk.new keepers.new).part b ≡ (D.keeping desk.old keepers.old).part b) }
    ensures may_still { OnErr result
        (MayBeSplit (D.layout desk.new).first ((D.seen desk.new).journals b) plan.now.parent plan.now.subs) }
    ensures full { result ≡ Err BeginFault.LogFull → HasNoRoomFor (D.layout desk.new) plan.now.subs ((D.seen desk.new).journals b) }
{
    let mut bucket = desk.hold_keeper(keepers, b);
    let answer = begin(alloc, &mut bucket, plan);
    desk.give_keeper(keepers, b, bucket);
    answer
}

/// Feeds the core one piece. Says whether no row is left.
pub(crate) fn feed_in<D: Desk>(desk: &mut D, keepers: &mut D::Keepers, b: u32, core: CoreId) -> bool
    requires within { b < (D.layout desk.old).buckets }
    requires rests { RestsWith D.Desk desk.old keepers.old }
    requires may { MayFeed ((D.keeping desk.old keepers.old).part b) core }
    ensures leaves { HoldsBucket D.Desk b desk.old keepers.old desk.new keepers.new }
    ensures fed { PartFeeds ((D.keeping desk.old keepers.old).part b) core result ((D.keeping desk.new keepers.new).part b) }
{
    let mut bucket = desk.hold_keeper(keepers, b);
    let is_done = feed_piece(&mut bucket, core);
    desk.give_keeper(keepers, b, bucket);
    is_done
}

/// Has the core replay from here on.
pub(crate) fn start_replay_in<D: Desk>(desk: &mut D, keepers: &mut D::Keepers, b: u32, core: CoreId)
    requires within { b < (D.layout desk.old).buckets }
    requires rests { RestsWith D.Desk desk.old keepers.old }
    requires may { MayStartReplay ((D.keeping desk.old keepers.old).part b) core }
    ensures leaves { HoldsBucket D.Desk b desk.old keepers.old desk.new keepers.new }
    ensures started { PartStartsReplay ((D.keeping desk.old keepers.old).part b) core ((D.keeping desk.new keepers.new).part b) }
{
    let mut bucket = desk.hold_keeper(keepers, b);
    start_replay(&mut bucket, core);
    desk.give_keeper(keepers, b, bucket);
}

/// Has the core replay one piece. Says whether none is left; then it is active.
pub(crate) fn replay_in<D: Desk>(
    desk: &mut D,
    keepers: &mut D::Keepers,
    b: u32,
    core: CoreId,
) -> bool
    requires within { b < (D.layout desk.old).buckets }
    requires rests { RestsWith D.Desk desk.old keepers.old }
    requires may { MayReplay ((D.keeping desk.old keepers.old).part b) core }
    ensures leaves { HoldsBucket D.Desk b desk.old keepers.old desk.new keepers.new }
    ensures replayed { PartReplays ((D.keeping desk.old keepers.old).part b) core result ((D.keeping desk.new keepers.new).part b) }
{
    let mut bucket = desk.hold_keeper(keepers, b);
    let is_done = replay_piece(&mut bucket, core);
    desk.give_keeper(keepers, b, bucket);
    is_done
}

/// From here on the further replicas of the subs may join this bucket.
pub(crate) fn ready_in<D: Desk>(desk: &mut D, keepers: &mut D::Keepers, b: u32)
    requires within { b < (D.layout desk.old).buckets }
    requires rests { RestsWith D.Desk desk.old keepers.old }
    requires may { (parent : SliceId) × MayBeReady ((D.keeping desk.old keepers.old).part b) parent }
    ensures leaves { HoldsBucket D.Desk b desk.old keepers.old desk.new keepers.new }
    ensures ready { (parent : SliceId) → MayBeReady ((D.keeping desk.old keepers.old).part b) parent
        → PartGetsReady ((D.keeping desk.old keepers.old).part b) parent ((D.keeping desk.new keepers.new).part b) }
    ensures underway { (base : Part) (plan : SplitPlan) → IsUnderway base plan ((D.keeping desk.old keepers.old).part b)
        → IsUnderway base plan ((D.keeping desk.new keepers.new).part b) }
{
    let mut bucket = desk.hold_keeper(keepers, b);
    ready(&mut bucket);
    desk.give_keeper(keepers, b, bucket);
}

/// Has a further replica of a sub join this bucket. An error means out of memory, and then nothing of the bucket's part was changed.
pub(crate) fn grow_in<D: Desk>(
    alloc: Global,
    desk: &mut D,
    keepers: &mut D::Keepers,
    b: u32,
    core: CoreId,
) -> Result<(), AllocError>
    requires within { b < (D.layout desk.old).buckets }
    requires rests { RestsWith D.Desk desk.old keepers.old }
    requires may { (sub : Slice) × MayGrow ((D.keeping desk.old keepers.old).part b) core sub }
    ensures leaves { HoldsBucket D.Desk b desk.old keepers.old desk.new keepers.new }
    ensures grown { OnOk result (HasGrown ((D.keeping desk.old keepers.old).part b) core ((D.keeping desk.new keepers.new).part b)) }
    ensures refused { OnErr result ((D.keeping desk.new keepers.new).part b ≡ (D.keeping desk.old keepers.old).part b) }
    ensures underway { (base : Part) (plan : SplitPlan) → IsUnderway base plan ((D.keeping desk.old keepers.old).part b)
        → IsUnderway base plan ((D.keeping desk.new keepers.new).part b) }
{
    let mut bucket = desk.hold_keeper(keepers, b);
    let answer = grow(alloc, &mut bucket, core);
    desk.give_keeper(keepers, b, bucket);
    answer
}

/// Puts the subs in the place of their parent in this bucket.
pub(crate) fn switch_in<D: Desk>(desk: &mut D, keepers: &mut D::Keepers, b: u32)
    requires within { b < (D.layout desk.old).buckets }
    requires rests { RestsWith D.Desk desk.old keepers.old }
    requires may { (parent : SliceId) × MaySwitch ((D.keeping desk.old keepers.old).part b) parent }
    ensures leaves { LeavesWith D.Desk desk.old desk.new keepers.new }
    ensures seen { IsAllSeen b (known D.Desk desk.new keepers.new) }
    ensures held { (parent : SliceId) → MaySwitch ((D.keeping desk.old keepers.old).part b) parent
        → KeeperHeld b (known D.Desk desk.old keepers.old)
        (known D.Desk desk.new keepers.new) (entry.Switched parent ∷ []) }
    ensures switched { (parent : SliceId) → MaySwitch ((D.keeping desk.old keepers.old).part b) parent
        → PartSwitches ((D.keeping desk.old keepers.old).part b) parent ((D.keeping desk.new keepers.new).part b) }
{
    let mut bucket = desk.hold_keeper(keepers, b);
    switch(&mut bucket);
    desk.give_keeper(keepers, b, bucket);
}

/// Gives the split up in this bucket.
pub(crate) fn abort_in<D: Desk>(desk: &mut D, keepers: &mut D::Keepers, b: u32)
    requires within { b < (D.layout desk.old).buckets }
    requires rests { RestsWith D.Desk desk.old keepers.old }
    requires may { (parent : SliceId) × MayAbort ((D.keeping desk.old keepers.old).part b) parent }
    ensures leaves { LeavesWith D.Desk desk.old desk.new keepers.new }
    ensures seen { IsAllSeen b (known D.Desk desk.new keepers.new) }
    ensures held { (parent : SliceId) → MayAbort ((D.keeping desk.old keepers.old).part b) parent
        → KeeperHeld b (known D.Desk desk.old keepers.old)
        (known D.Desk desk.new keepers.new) (entry.Failed parent ∷ []) }
    ensures given_up { (base : Part) (plan : SplitPlan) → IsUnderway base plan ((D.keeping desk.old keepers.old).part b)
        → IsGivenUp base plan ((D.keeping desk.new keepers.new).part b) }
{
    let mut bucket = desk.hold_keeper(keepers, b);
    abort(&mut bucket);
    desk.give_keeper(keepers, b, bucket);
}
