ghost use Rattle.std.specs.Prelude.{◌≡◌, ◌≤◌, ◌+◌, ◌↔◌, Err, OnOk, OnErr};
ghost use Rattle.sc_record.specs.declared.slice.CoreId.{CoreId};
ghost use Rattle.sc_cluster.specs.declared.slice.Slice.{Slice};
ghost use Rattle.sc_bucket.specs.Room.{BucketHasRoom, BucketIsFull};
ghost use Rattle.sc_bucket.specs.Sound.{IsSound};
ghost use Rattle.sc_bucket.specs.Events.{IsSameButRoom};
ghost use Rattle.sc_handover.specs.Conditions.{CanRejoin};
ghost use Rattle.sc_handover.specs.Parts.{CanFollow, IsMade};
ghost use Rattle.sc_handover.specs.Seats.{Rejoins};

use crate::following::follower;
use sc_bucket::{Bucket, Feed};
use sc_record::{CoreId, Entry};
use sc_replica::Replica;
use std::alloc::{AllocError, Global};
use thiserror::Error;

/// Why a core did not rejoin. The bucket is as it was, but for room in memory.
#[derive(Clone, Copy, Debug, PartialEq, Eq, Error)]
pub enum RejoinFault {
    /// The journal has no room for the entry that says so and for the one more that it owes then.
    #[error("the update log is full")]
    LogFull,
    #[error("out of memory")]
    Memory,
}

impl From<AllocError> for RejoinFault {
    ghost use Rattle.std.specs.Prelude.{◌≡◌};
    ghost use Rattle.sc_handover.specs.declared.rejoining.RejoinFault.TheVariants as faults;

    ghost from_gives = { λ _ fault. fault ≡ faults.Memory };

    fn from(_: AllocError) -> RejoinFault {
        RejoinFault::Memory
    }
}

/// Has a follower that is down take part again, as a new core: it loses what it had, buffers what comes, and is to be fed its
/// leader's cells as they are (Solr Reference Guide, "SolrCloud Recoveries and Write Tolerance"). All memory is taken first; after an
/// error the bucket is as it was, but for room in memory.
pub fn rejoin(alloc: Global, bucket: &mut Bucket, core: CoreId) -> Result<(), RejoinFault>
    requires sound { IsSound bucket.old }
    requires can { CanRejoin bucket.old core }
    ensures sound { IsSound bucket.new }
    ensures rejoined { OnOk result (Rejoins bucket.old core bucket.new) }
    ensures refused { OnErr result (IsSameButRoom bucket.old bucket.new) }
    ensures full { (result ≡ Err RejoinFault.LogFull) ↔ BucketIsFull 2 bucket.old }
{
    let entries = bucket.owed + 2;
    if bucket.limit < bucket.entries() + entries {
        return Err(RejoinFault::LogFull);
    }
    bucket.journal.reserve(entries as usize)?;
    let leader = CoreId::leader(core.slice);
    let (fresh, feed) = follower(alloc, bucket, leader, core)?;
    put_rejoined(bucket, fresh, feed)?;
    Ok(())
}

// Puts a new core in the place of that of its name, which is up from here on, and its feed. After an error the bucket is as it was:
// memory was refused.
fn put_rejoined(bucket: &mut Bucket, fresh: Replica, feed: Feed) -> Result<(), AllocError>
    requires sound { IsSound bucket.old }
    requires made { (name : CoreId) × (slice : Slice) × CanRejoin bucket.old name × CanFollow bucket.old name slice
        × IsMade bucket.old name slice fresh feed }
    requires memory { bucket.old.owed + 2 ≤ bucket.old.journal.room }
    requires room { BucketHasRoom 2 bucket.old }
    ensures sound { IsSound bucket.new }
    ensures rejoined { OnOk result (Rejoins bucket.old fresh.core bucket.new) }
    ensures refused { OnErr result (bucket.new ≡ bucket.old) }
{
    bucket.feeds.push(feed)?;
    let core = fresh.core();
    let at = bucket.replicas.position(core).unwrap();
    bucket.replicas.renew(at, fresh);
    bucket.journal.append(Entry::Up { core });
    bucket.owed += 1;
    Ok(())
}
