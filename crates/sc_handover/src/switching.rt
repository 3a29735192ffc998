ghost use Rattle.std.specs.Prelude.{◌≡◌, ◌<◌, length, slice_get, Some, true, false, not, count_by, All, Contains};
ghost use Rattle.sc_record.specs.declared.slice.SliceId.{SliceId};
ghost use Rattle.sc_cluster.specs.declared.slice.Slice.{Slice};
ghost use Rattle.sc_cluster.specs.Slices.{forming};
ghost use Rattle.sc_cluster.specs.Changes.{Change, after};
ghost use Rattle.sc_replica.specs.Core.{Core};
ghost use Rattle.sc_journal.specs.Down.{is_down, follower_keys};
ghost use Rattle.sc_bucket.specs.Sound.{IsSound};
ghost use Rattle.sc_bucket.specs.Events.{DeliversAllTo};
ghost use Rattle.sc_handover.specs.Conditions.{CanSwitch};
ghost use Rattle.sc_handover.specs.Events.{Switches, HaveLastWrites};
ghost use Rattle.sc_handover.specs.Parts.{is_of_sub, IsQuiet, DeliversToSubs, NoneIsToASub, PutsSwitch};

use sc_bucket::{Bucket, Phase};
use sc_record::{CoreId, Entry, SliceId};

/// Puts the subs in the place of their parent: delivers what is in flight to their cores, and hands each the parent's searcher, cut to
/// its range. The parent's cores stay until the parent is dropped. It takes no memory.
pub fn switch(bucket: &mut Bucket)
    requires sound { IsSound bucket.old }
    requires can { (parent : SliceId) × CanSwitch bucket.old parent }
    ensures sound { IsSound bucket.new }
    ensures switched { (parent : SliceId) → CanSwitch bucket.old parent → Switches bucket.old parent bucket.new }
    ensures last { HaveLastWrites bucket.new (forming bucket.old.map) }
{
    let Phase::Recovering { parent } = bucket.phase else {
        unreachable!()
    };
    deliver_to_subs(bucket);
    put_switch(bucket, parent);
}

// Delivers what is in flight to the cores of the subs.
fn deliver_to_subs(bucket: &mut Bucket)
    requires sound { IsSound bucket.old }
    ensures sound { IsSound bucket.new }
    ensures delivered { DeliversToSubs bucket.old bucket.new }
    ensures settled { NoneIsToASub bucket.new }
    ensures quiet { All IsQuiet bucket.new.replicas }
{
    for at in 0..bucket.replicas.len() {
        deliver_to_sub(bucket, at);
    }
}

// Delivers what is in flight to the core at this place, where it is of a sub.
fn deliver_to_sub(bucket: &mut Bucket, at: usize)
    requires sound { IsSound bucket.old }
    requires within { at < length bucket.old.replicas }
    ensures sound { IsSound bucket.new }
    ensures of_sub { (core : Core) → slice_get bucket.old.replicas at ≡ Some core → is_of_sub bucket.old.map core.core ≡ true
        → DeliversAllTo bucket.old core.core bucket.new }
    ensures other { (core : Core) → slice_get bucket.old.replicas at ≡ Some core → is_of_sub bucket.old.map core.core ≡ false
        → bucket.new ≡ bucket.old }
    ensures quiet { (core : Core) → slice_get bucket.old.replicas at ≡ Some core → IsQuiet core }
{
    let core = bucket.replicas.get(at).core();
    if is_of_sub(bucket, core) {
        bucket.deliver_all_to(core);
    }
}

// A split is making the core's slice.
fn is_of_sub(bucket: &Bucket, core: CoreId) -> bool
    ensures { result ≡ is_of_sub bucket.now.map core }
{
    match bucket.map.by_id(core.slice) {
        Some(slice) => slice.state.is_forming(),
        None => false,
    }
}

// Puts the subs in the place of their parent, once nothing is in flight to them.
fn put_switch(bucket: &mut Bucket, parent: SliceId)
    requires sound { IsSound bucket.old }
    requires can { CanSwitch bucket.old parent }
    requires settled { NoneIsToASub bucket.old }
    requires quiet { All IsQuiet bucket.old.replicas }
    ensures sound { IsSound bucket.new }
    ensures switched { PutsSwitch bucket.old parent bucket.new }
    ensures last { HaveLastWrites bucket.new (forming bucket.old.map) }
{
    bucket.owed -= 1 + followers_up(bucket, parent);
    bucket.map.switched(parent);
    bucket.searchers = bucket.spares.take().unwrap();
    bucket.phase = Phase::Idle;
    bucket.journal.append(Entry::Switched { parent });
}

// How many of the slice's followers are not down.
fn followers_up(bucket: &Bucket, slice: SliceId) -> u64
    requires sound { IsSound bucket.now }
    requires there { (one : Slice) × Contains bucket.now.map one × (one.id ≡ slice) }
    ensures { (one : Slice) → Contains bucket.now.map one → one.id ≡ slice
        → result ≡ count_by (λ key. not (is_down bucket.now.journal.entries key)) (follower_keys one) }
{
    let replicas = bucket.map.by_id(slice).unwrap().replicas;
    let mut count = 0;
    for below in 1..replicas {
        let core = CoreId {
            slice,
            replica: below + 1,
        };
        if !bucket.is_down(core) {
            count += 1;
        }
    }
    count
}
