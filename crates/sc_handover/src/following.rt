ghost use Rattle.std.specs.Prelude.{◌≡◌, IfOk};
ghost use Rattle.sc_cluster.specs.declared.slice.Slice.{Slice};
ghost use Rattle.sc_bucket.specs.Sound.{IsSound};
ghost use Rattle.sc_handover.specs.Made.{leader_of};
ghost use Rattle.sc_handover.specs.Parts.{CanFollow, IsMade};

use crate::beginning::empty_fed;
use sc_bucket::{Bucket, Feed};
use sc_record::CoreId;
use sc_replica::Replica;
use sc_snapshot::Rows;
use std::alloc::{AllocError, Global};
use std::sync::Arc;

/// A core of this name without cells that buffers what comes, and its feed from its slice's leader's cells as they are. The bucket is
/// only read.
pub(crate) fn follower(
    alloc: Global,
    bucket: &Bucket,
    leader: CoreId,
    core: CoreId,
) -> Result<(Replica, Feed), AllocError>
    requires sound { IsSound bucket.now }
    requires can { (slice : Slice) × CanFollow bucket.now core slice }
    requires leads { leader ≡ leader_of core.slice }
    ensures { IfOk result (λ made. (slice : Slice) → CanFollow bucket.now core slice → IsMade bucket.now core slice made.0 made.1) }
{
    let at = bucket.replicas.position(leader).unwrap();
    let cells = bucket.replicas.get(at).cells().share(alloc)?;
    let range = bucket.map.by_id(core.slice).unwrap().range;
    let snapshot = Rows::from_list(alloc, bucket.entries(), cells)?;
    empty_fed(alloc, core, range, Arc::new(alloc, snapshot)?)
}
