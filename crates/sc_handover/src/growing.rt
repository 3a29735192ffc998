ghost use Rattle.std.specs.Prelude.{◌≡◌, OnOk, OnErr};
ghost use Rattle.sc_record.specs.declared.slice.CoreId.{CoreId};
ghost use Rattle.sc_cluster.specs.declared.slice.Slice.{Slice};
ghost use Rattle.sc_bucket.specs.Sound.{IsSound};
ghost use Rattle.sc_bucket.specs.Events.{DeliversAllTo};
ghost use Rattle.sc_handover.specs.Conditions.{CanGrow};
ghost use Rattle.sc_handover.specs.Made.{leader_of};
ghost use Rattle.sc_handover.specs.Events.{Grows};
ghost use Rattle.sc_handover.specs.Parts.{CanFollow, IsMade, Joins};

use crate::following::follower;
use sc_bucket::{Bucket, Feed};
use sc_record::CoreId;
use sc_replica::Replica;
use std::alloc::{AllocError, Global};

/// Has a further replica of a sub join: delivers what is in flight to the sub's leader, and makes a core that buffers what comes and is
/// fed from the leader's cells as they are then. After an error the messages are delivered, and all else is as it was: memory was
/// refused.
pub fn grow(alloc: Global, bucket: &mut Bucket, core: CoreId) -> Result<(), AllocError>
    requires sound { IsSound bucket.old }
    requires can { (sub : Slice) × CanGrow bucket.old core sub }
    ensures sound { IsSound bucket.new }
    ensures grown { OnOk result ((sub : Slice) → CanGrow bucket.old core sub → Grows bucket.old core sub bucket.new) }
    ensures refused { OnErr result (DeliversAllTo bucket.old (leader_of core.slice) bucket.new) }
{
    let leader = CoreId::leader(core.slice);
    bucket.deliver_all_to(leader);
    let (replica, feed) = follower(alloc, bucket, leader, core)?;
    join(bucket, replica, feed)
}

// Puts a core and its feed into the bucket, both or neither.
fn join(bucket: &mut Bucket, replica: Replica, feed: Feed) -> Result<(), AllocError>
    requires sound { IsSound bucket.old }
    requires made { (name : CoreId) × (sub : Slice) × CanGrow bucket.old name sub × CanFollow bucket.old name sub
        × IsMade bucket.old name sub replica feed }
    ensures sound { IsSound bucket.new }
    ensures joined { OnOk result (Joins bucket.old replica.core feed bucket.new) }
    ensures refused { OnErr result (bucket.new ≡ bucket.old) }
{
    bucket.feeds.push(feed)?;
    if let Err(refused) = bucket.replicas.insert(replica) {
        bucket.feeds.remove(bucket.feeds.len() - 1);
        return Err(refused);
    }
    Ok(())
}
