//! The new cores of one bucket are filled: each is fed the rows of its snapshot, and then replays what it buffered meanwhile.

ghost use Rattle.std.specs.Prelude.{◌≡◌, ◌<◌, [], ◌∷◌, List, IsTrue};
ghost use Rattle.sc_record.specs.declared.slice.CoreId.{CoreId};
ghost use Rattle.sc_cluster.specs.declared.plan.SplitPlan.{SplitPlan};
ghost use Rattle.sc_keeper.specs.declared.part.Part.{Part};
ghost use Rattle.sc_split.specs.Buckets.{fed_names, IsAllSeen, AreToFill, IsToFill, IsFirstFed, IsFilled};
ghost use Rattle.sc_split.specs.Buckets.{IsUnderway, KeepsSeats, KeepsCores};
ghost use Rattle.sc_split.specs.Leaving.{known, RestsWith, HoldsBucket, AsksPace};

use crate::bucket::{feed_in, replay_in, start_replay_in};
use sc_collection::Desk;
use sc_io::{Pace, SplitStep};
use sc_record::CoreId;

/// Fills the new cores of this bucket: feeds each, in this order, all rows of its snapshot, and then has each, in this order, replay all
/// that it buffered. The pace is asked after each piece. Says whether all are filled; if not, the pace has said stop.
pub(crate) fn fill<D: Desk, P: Pace>(
    desk: &mut D,
    pace: &mut P,
    keepers: &mut D::Keepers,
    b: u32,
    cores: &[CoreId],
) -> bool
    requires within { b < (D.layout desk.old).buckets }
    requires rests { RestsWith D.Desk desk.old keepers.old }
    requires seen { IsAllSeen b (known D.Desk desk.old keepers.old) }
    requires to_fill { IsToFill ((D.keeping desk.old keepers.old).part b) cores.now }
    ensures leaves { HoldsBucket D.Desk b desk.old keepers.old desk.new keepers.new }
    ensures seats { KeepsSeats ((D.keeping desk.old keepers.old).part b) ((D.keeping desk.new keepers.new).part b) }
    ensures underway { (base : Part) (plan : SplitPlan) → IsUnderway base plan ((D.keeping desk.old keepers.old).part b)
        → IsUnderway base plan ((D.keeping desk.new keepers.new).part b) }
    ensures filled { IsTrue result → IsFilled ((D.keeping desk.new keepers.new).part b) }
    ensures pace { AsksPace P.Pace pace.old pace.new result }
{
    for core in cores {
        if !feed_all(desk, pace, keepers, b, *core) {
            return false;
        }
    }
    for core in cores {
        if !replay_all(desk, pace, keepers, b, *core) {
            return false;
        }
    }
    true
}

// Feeds the core, whose feed is the first, all rows of its snapshot. Says whether all are fed; if not, the pace has said stop.
fn feed_all<D: Desk, P: Pace>(
    desk: &mut D,
    pace: &mut P,
    keepers: &mut D::Keepers,
    b: u32,
    core: CoreId,
) -> bool
    requires within { b < (D.layout desk.old).buckets }
    requires rests { RestsWith D.Desk desk.old keepers.old }
    requires first { IsFirstFed ((D.keeping desk.old keepers.old).part b) core }
    ensures leaves { HoldsBucket D.Desk b desk.old keepers.old desk.new keepers.new }
    ensures kept { KeepsCores ((D.keeping desk.old keepers.old).part b) ((D.keeping desk.new keepers.new).part b) }
    ensures fed { IsTrue result → (names : List CoreId) → fed_names ((D.keeping desk.old keepers.old).part b) ≡ core ∷ names
        → fed_names ((D.keeping desk.new keepers.new).part b) ≡ names }
    ensures pace { AsksPace P.Pace pace.old pace.new result }
{
    loop {
        let is_fed = feed_in(desk, keepers, b, core);
        if !pace.between(SplitStep::Fed { bucket: b }) {
            return false;
        }
        if is_fed {
            return true;
        }
    }
}

// Has the core, the first of those that are to be filled, replay all that it buffered. Says whether it has; if not, the pace has said
// stop.
fn replay_all<D: Desk, P: Pace>(
    desk: &mut D,
    pace: &mut P,
    keepers: &mut D::Keepers,
    b: u32,
    core: CoreId,
) -> bool
    requires within { b < (D.layout desk.old).buckets }
    requires rests { RestsWith D.Desk desk.old keepers.old }
    requires unfed { ((D.keeping desk.old keepers.old).part b).feeds ≡ [] }
    requires first { (names : List CoreId) × AreToFill ((D.keeping desk.old keepers.old).part b) (core ∷ names) }
    ensures leaves { HoldsBucket D.Desk b desk.old keepers.old desk.new keepers.new }
    ensures seats { KeepsSeats ((D.keeping desk.old keepers.old).part b) ((D.keeping desk.new keepers.new).part b) }
    ensures unfed { ((D.keeping desk.new keepers.new).part b).feeds ≡ [] }
    ensures underway { (base : Part) (plan : SplitPlan) → IsUnderway base plan ((D.keeping desk.old keepers.old).part b)
        → IsUnderway base plan ((D.keeping desk.new keepers.new).part b) }
    ensures filled { IsTrue result → (names : List CoreId) → AreToFill ((D.keeping desk.old keepers.old).part b) (core ∷ names)
        → AreToFill ((D.keeping desk.new keepers.new).part b) names }
    ensures pace { AsksPace P.Pace pace.old pace.new result }
{
    start_replay_in(desk, keepers, b, core);
    loop {
        let is_replayed = replay_in(desk, keepers, b, core);
        if !pace.between(SplitStep::Replayed { bucket: b }) {
            return false;
        }
        if is_replayed {
            return true;
        }
    }
}
