ghost use Rattle.sc_bucket.specs.Sound.{IsSound};
ghost use Rattle.sc_handover.specs.Conditions.{CanDrop};
ghost use Rattle.sc_handover.specs.Events.{Drops};

use sc_bucket::Bucket;
use sc_record::{Entry, SliceId};

/// Takes an inactive slice away, with its cores and the messages to them. It takes no memory.
pub fn drop_shard(bucket: &mut Bucket, slice: SliceId)
    requires sound { IsSound bucket.old }
    requires can { CanDrop bucket.old slice }
    ensures sound { IsSound bucket.new }
    ensures dropped { Drops bucket.old slice bucket.new }
{
    bucket.map.dropped(slice);
    bucket.replicas.keep_of(&bucket.map);
    bucket.flight.keep_of(&bucket.map);
    bucket.journal.append(Entry::Dropped { slice });
    bucket.owed -= 1;
}
