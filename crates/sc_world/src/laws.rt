//! What lists of events come to.

ghost use Rattle.sc_world.specs.Laws.{KeepsTheTable, StaysWithoutOrders, LeavesNothing, FollowersCatchUp, RejoinedCatchUp, EventsAreOfTheTable};
ghost use Rattle.sc_world.specs.Others.{SplitsLeaveOthersAlone, DetachesLeaveOthersAlone, RejoinsLeaveOthersAlone, LeadsLeaveOthersAlone};
ghost use Rattle.sc_world.specs.Rests.{BucketsComeToRest};

/// No event of a split makes, moves or takes away a write.
pub fn splits_keep_the_table()
    ensures kept { KeepsTheTable }
    ensures stays { StaysWithoutOrders }
{}

/// A split that is given up leaves what was there before it, and what was written meanwhile.
pub fn given_up_splits_leave_nothing()
    ensures { LeavesNothing }
{}

/// Once nothing is pending, a slice's cores hold the same.
pub fn followers_catch_up()
    ensures followers { FollowersCatchUp }
    ensures rejoined { RejoinedCatchUp }
{}

/// An event of a split changes nothing of the slices that it is not about.
pub fn splits_leave_others_alone()
    ensures { SplitsLeaveOthersAlone }
{}

/// A core that goes down or rejoins changes nothing of another, and one that takes the lead nothing but of that which led.
pub fn changes_of_cores_leave_others_alone()
    ensures detaches { DetachesLeaveOthersAlone }
    ensures rejoins { RejoinsLeaveOthersAlone }
    ensures leads { LeadsLeaveOthersAlone }
{}

/// Each event of a list is one that may come to a bucket, whoever holds it.
pub fn events_are_of_the_table()
    ensures { EventsAreOfTheTable }
{}

/// What a bucket owes is enough to end all that was begun.
pub fn buckets_come_to_rest()
    ensures { BucketsComeToRest }
{}
