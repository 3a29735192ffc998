ghost use Rattle.std.specs.Prelude.{◌≡◌, length};
ghost use Rattle.std.specs.List.{flat_map};
ghost use Rattle.sc_record.specs.declared.slice.SliceId.{SliceId};
ghost use Rattle.sc_cluster.specs.Slices.{forming};
ghost use Rattle.sc_journal.specs.Down.{follower_keys};
ghost use Rattle.sc_bucket.specs.Sound.{IsSound};
ghost use Rattle.sc_handover.specs.Conditions.{CanAbort};
ghost use Rattle.sc_handover.specs.Events.{Aborts};

use sc_bucket::{Bucket, Phase};
use sc_cluster::ClusterMap;
use sc_record::{Entry, SliceId};

/// Gives the split up: its subs leave the map, with their cores, their feeds and the messages to them, and the parent goes on
/// alone. What was accepted and what was committed meanwhile stays, and so does the commit that began the split. It takes no memory.
pub fn abort(bucket: &mut Bucket)
    requires sound { IsSound bucket.old }
    requires can { (parent : SliceId) × CanAbort bucket.old parent }
    ensures sound { IsSound bucket.new }
    ensures aborted { (parent : SliceId) → CanAbort bucket.old parent → Aborts bucket.old parent bucket.new }
{
    match bucket.phase {
        Phase::Idle => unreachable!(),
        Phase::Building { parent } | Phase::Recovering { parent } => give_up(bucket, parent),
    }
}

// Takes the subs of the open split of this parent away.
fn give_up(bucket: &mut Bucket, parent: SliceId)
    requires sound { IsSound bucket.old }
    requires can { CanAbort bucket.old parent }
    ensures sound { IsSound bucket.new }
    ensures aborted { Aborts bucket.old parent bucket.new }
{
    bucket.owed -= 2 + followers_of_subs(&bucket.map);
    bucket.map.failed(parent);
    bucket.replicas.keep_of(&bucket.map);
    bucket.flight.keep_of(&bucket.map);
    bucket.feeds.clear();
    bucket.spares = None;
    bucket.phase = Phase::Idle;
    bucket.journal.append(Entry::Failed { parent });
}

// How many followers the slices are to have that a split is making.
fn followers_of_subs(slices: &ClusterMap) -> u64
    ensures { result ≡ length (flat_map follower_keys (forming slices.now)) }
{
    let mut count = 0;
    for at in 0..slices.len() {
        let slice = slices.get(at).unwrap();
        if slice.state.is_forming() {
            count += u64::from(slice.replicas - 1);
        }
    }
    count
}
