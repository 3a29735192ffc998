ghost use Rattle.std.specs.Prelude.{◌≡◌, ◌+◌, ◌<◌, length, OnOk};
ghost use Rattle.sc_seen.specs.Moments.{view_of};
ghost use Rattle.sc_bucket.specs.Asked.{AddsSearchers};
ghost use Rattle.sc_collection.specs.Desks.{nothing_out, IsDeskAtRest};
ghost use Rattle.sc_collection.specs.Kept.{trail_room};
ghost use Rattle.sc_collection.specs.Looks.{AreAsked, LooksAtOne};

use crate::desk::Desk;
use crate::trail::Trail;
use sc_hash::Range;
use sc_replicas::Searcher;
use sc_seen::Stop;
use std::alloc::AllocError;

/// Looks at the bucket of this number in one hold, whose stop is kept, and puts its searchers at the end of the others, in the order of
/// the map: those of the active slices whose range meets the route's or, without one, of all. Each shares its slice's snapshot, in which
/// can be looked once the bucket was given back. The only error is that memory was refused; the stop is kept all the same.
pub fn take_searchers<D: Desk>(
    desk: &mut D,
    trail: &mut Trail,
    b: u32,
    route: &Option<Range>,
    searchers: &mut Vec<Searcher>,
) -> Result<(), AllocError>
    requires nothing_out { D.out desk.old ≡ nothing_out }
    requires within { b < (D.layout desk.old).buckets }
    requires room { length trail.old.stops < trail_room }
    ensures looks { LooksAtOne (D.layout desk.old) (view_of (D.seen desk.old) trail.old.stops) (view_of (D.seen desk.new) trail.new.stops) b
        (λ journal. OnOk result (AddsSearchers (AreAsked (D.layout desk.old) b journal route.now) searchers.old.items searchers.new.items)) }
    ensures layout { D.layout desk.new ≡ D.layout desk.old }
    ensures rest { IsDeskAtRest (D.layout desk.new) (D.out desk.new) (D.seen desk.new) }
    ensures stops { length trail.new.stops ≡ length trail.old.stops + 1 }
    ensures requests { trail.new.requests ≡ trail.old.requests }
{
    let bucket = desk.hold(b);
    let place = bucket.entries();
    let taken = bucket.searchers(route, searchers);
    desk.give(b, bucket);
    trail.keep(Stop {
        lock: b,
        place,
        made: false,
    });
    taken
}
