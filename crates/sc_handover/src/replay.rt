ghost use Rattle.sc_bucket.specs.Sound.{IsSound};
ghost use Rattle.sc_handover.specs.Conditions.{CanStartReplay, CanReplay};
ghost use Rattle.sc_handover.specs.Events.{StartsReplay, ReplaysPiece};

use sc_bucket::Bucket;
use sc_record::CoreId;

/// From here on the core replays what it buffered, and applies what comes. It takes no memory.
pub fn start_replay(bucket: &mut Bucket, core: CoreId)
    requires sound { IsSound bucket.old }
    requires can { CanStartReplay bucket.old core }
    ensures sound { IsSound bucket.new }
    ensures started { StartsReplay bucket.old core bucket.new }
{
    let at = bucket.replicas.position(core).unwrap();
    bucket.replicas.start_replay(at);
}

/// Has the core apply the oldest 64 writes of its buffer, or all where they are fewer. Says whether none is left; then the core is
/// active. It takes no memory.
pub fn replay_piece(bucket: &mut Bucket, core: CoreId) -> bool
    requires sound { IsSound bucket.old }
    requires can { CanReplay bucket.old core }
    ensures sound { IsSound bucket.new }
    ensures replayed { ReplaysPiece bucket.old core result bucket.new }
{
    let at = bucket.replicas.position(core).unwrap();
    bucket.replicas.replay(at)
}
