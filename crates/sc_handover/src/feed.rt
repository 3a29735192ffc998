ghost use Rattle.std.specs.Prelude.{◌<◌, length};
ghost use Rattle.sc_bucket.specs.Sound.{IsSound};
ghost use Rattle.sc_bucket.specs.Kept.{FeedState};
ghost use Rattle.sc_replica.specs.Core.{Core};
ghost use Rattle.sc_handover.specs.Conditions.{CanFeed};
ghost use Rattle.sc_handover.specs.Events.{FeedsPiece};
ghost use Rattle.sc_handover.specs.Feeding.{fed_core_at, IsFedAt, FeedsRows};

use sc_bucket::Bucket;
use sc_record::CoreId;

/// How many rows of a snapshot one piece of a feed looks at, at most.
const FEED_LIMIT: u32 = 64;

/// Feeds the core a piece: looks at the next 64 rows of its snapshot, or at all that are left where they are fewer, and applies those
/// whose hash is in the core's range. Says whether no row is left; then the core's feed is gone. It takes no memory.
pub fn feed_piece(bucket: &mut Bucket, core: CoreId) -> bool
    requires sound { IsSound bucket.old }
    requires can { CanFeed bucket.old core }
    ensures sound { IsSound bucket.new }
    ensures fed { FeedsPiece bucket.old core result bucket.new }
{
    let at = bucket.feeds.position(core).unwrap();
    let replica = bucket.replicas.position(core).unwrap();
    let count = bucket.feeds.get(at).rows_left().min(FEED_LIMIT);
    for _row in 0..count {
        feed_row(bucket, at, replica);
    }
    let is_done = bucket.feeds.get(at).rows_left() == 0;
    if is_done {
        bucket.feeds.remove(at);
    }
    is_done
}

// Looks at the next row of the feed at this place, and feeds it to its core, which is at that place, where its hash is in the core's
// range.
fn feed_row(bucket: &mut Bucket, at: usize, replica: usize)
    requires sound { IsSound bucket.old }
    requires left { (feed : FeedState) × (core : Core) × IsFedAt bucket.old (fed_core_at at replica feed core) × (feed.next < length feed.rows) }
    ensures sound { IsSound bucket.new }
    ensures fed { (feed : FeedState) (core : Core) → IsFedAt bucket.old (fed_core_at at replica feed core)
        → FeedsRows bucket.old (fed_core_at at replica feed core) 1 bucket.new }
{
    if let Some(write) = bucket.feeds.look(at) {
        bucket.replicas.feed(replica, write);
    }
}
