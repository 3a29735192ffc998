ghost use Rattle.std.specs.Prelude.{◌≡◌, Some};
ghost use Rattle.sc_record.specs.declared.slice.SliceId.{SliceId};
ghost use Rattle.sc_bucket.specs.Sound.{IsSound};
ghost use Rattle.sc_handover.specs.Conditions.{CanBeReady};
ghost use Rattle.sc_handover.specs.Events.{GetsReady};

use sc_bucket::{Bucket, Phase};

/// The leaders of all subs are made: from here on their followers may be. It takes no memory.
pub fn ready(bucket: &mut Bucket)
    requires sound { IsSound bucket.old }
    requires can { (parent : SliceId) × CanBeReady bucket.old parent }
    ensures sound { IsSound bucket.new }
    ensures ready { (parent : SliceId) → CanBeReady bucket.old parent → GetsReady bucket.old parent bucket.new }
{
    let Phase::Building { parent } = bucket.phase else {
        unreachable!()
    };
    bucket.phase = Phase::Recovering { parent };
}
