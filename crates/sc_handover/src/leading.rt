ghost use Rattle.std.specs.Prelude.{◌≡◌, false, All};
ghost use Rattle.sc_bucket.specs.Kept.{Sent};
ghost use Rattle.sc_bucket.specs.Flight.{is_to};
ghost use Rattle.sc_bucket.specs.Sound.{IsSound};
ghost use Rattle.sc_handover.specs.Conditions.{CanLead};
ghost use Rattle.sc_handover.specs.Parts.{ChangesSeats};
ghost use Rattle.sc_handover.specs.Seats.{TakesLead, IsLedWhole};

use sc_bucket::Bucket;
use sc_record::{CoreId, Entry};

/// Has a follower take the lead of its slice: delivers what is in flight to it, and has it change seats with the core that led, which
/// is down from here on (Solr Reference Guide, "Shard Management", FORCELEADER). It takes no memory.
pub fn take_lead(bucket: &mut Bucket, core: CoreId)
    requires sound { IsSound bucket.old }
    requires can { CanLead bucket.old core }
    ensures sound { IsSound bucket.new }
    ensures led { TakesLead bucket.old core bucket.new }
    ensures whole { IsLedWhole bucket.new core.slice }
{
    bucket.deliver_all_to(core);
    change_seats(bucket, core);
}

// Has the follower change seats with the core that leads, once nothing is in flight to it.
fn change_seats(bucket: &mut Bucket, core: CoreId)
    requires sound { IsSound bucket.old }
    requires can { CanLead bucket.old core }
    requires delivered { All (λ (message : Sent). is_to core message ≡ false) bucket.old.flight.messages }
    ensures sound { IsSound bucket.new }
    ensures changed { ChangesSeats bucket.old core bucket.new }
    ensures whole { IsLedWhole bucket.new core.slice }
{
    let leader = CoreId::leader(core.slice);
    let first = bucket.replicas.position(leader).unwrap();
    let second = bucket.replicas.position(core).unwrap();
    bucket.replicas.exchange(first, second);
    bucket.flight.leave_out(leader);
    bucket.journal.append(Entry::Led { core });
    bucket.owed -= 1;
}
