ghost use Rattle.std.specs.Prelude.{◌≡◌, ◌↔◌, ◌<◌, ◌≤◌, true, false, not, IsTrue, All};
ghost use Rattle.sc_record.specs.declared.slice.SliceId.{SliceId};
ghost use Rattle.sc_cluster.specs.declared.slice.Slice.{Slice};
ghost use Rattle.sc_cluster.specs.declared.slice.State.TheVariants as states;
ghost use Rattle.sc_cluster.specs.Changes.{IsInactive};
ghost use Rattle.sc_ulog.specs.declared.mode.Mode.TheVariants.{Active};
ghost use Rattle.sc_replica.specs.Core.{Core};
ghost use Rattle.sc_journal.specs.Down.{IsFollower};
ghost use Rattle.sc_replicas.specs.Cores.{CoresAscend, slice_keys};
ghost use Rattle.sc_bucket.specs.Sound.{HasCores, AreLedActively, IsSound};
ghost use Rattle.sc_handover.specs.Conditions.{IsInMode, IsUnfed, IsThereActive, CanBegin, CanFeed, CanRejoin, CanLead};
ghost use Rattle.sc_world.specs.Steps.{Can};
ghost use Rattle.sc_world.specs.Checks.{IsBuilding, IsRecovering, IsLedActively, IsWholeSlice, MayJoin, IsMissing, IsActiveFollower, IsCaughtUp};

use crate::event::Event;
use sc_bucket::{Bucket, Phase};
use sc_cluster::{Slice, SplitPlan, State};
use sc_record::{CoreId, SliceId};
use sc_ulog::Mode;

/// Whether the condition of the event holds.
pub fn can(bucket: &Bucket, event: &Event) -> bool
    requires { IsSound bucket.now }
    ensures { IsTrue result ↔ Can bucket.now event.now }
{
    match event {
        Event::Accept { .. } | Event::DeliverNth { .. } | Event::Deliver { .. } | Event::Commit =>
            true,
        Event::Settle { place } => bucket.unsettled.contains(*place),
        Event::Detach { core } => bucket.can_detach(*core),
        Event::Rejoin { core } => can_rejoin(bucket, *core),
        Event::Lead { core } => can_lead(bucket, *core),
        Event::Begin { plan } => can_begin(bucket, plan),
        Event::Feed { core } => has_feed(bucket, *core),
        Event::StartReplay { core } => {
            is_in_mode(bucket, *core, Mode::Buffering) && !has_feed(bucket, *core)
        }
        Event::Replay { core } => is_in_mode(bucket, *core, Mode::Replaying),
        Event::Ready => is_building(bucket) && are_led_actively(bucket),
        Event::Grow { core } => is_recovering(bucket) && is_missing(bucket, *core),
        Event::Switch => is_recovering(bucket) && are_whole(bucket),
        Event::Abort => bucket.phase != Phase::Idle,
        Event::Drop { slice } => bucket.phase == Phase::Idle && is_inactive(bucket, *slice),
    }
}

// No split is open, the map allows this one, and no core is still catching up.
fn can_begin(bucket: &Bucket, plan: &SplitPlan) -> bool
    requires { IsSound bucket.now }
    ensures { IsTrue result ↔ CanBegin bucket.now plan.now.parent plan.now.subs }
{
    bucket.phase == Phase::Idle
        && bucket.map.allows(plan)
        && bucket.feeds.len() == 0
        && are_all_active(bucket)
}

// Each core is active.
fn are_all_active(bucket: &Bucket) -> bool
    ensures { IsTrue result ↔ All (λ (core : Core). core.mode ≡ Active) bucket.now.replicas }
{
    for at in 0..bucket.replicas.len() {
        if bucket.replicas.get(at).mode() != Mode::Active {
            return false;
        }
    }
    true
}

// No split is open, and the core is a follower of an active slice that is down, is active, and has no feed.
fn can_rejoin(bucket: &Bucket, core: CoreId) -> bool
    requires { IsSound bucket.now }
    ensures { IsTrue result ↔ CanRejoin bucket.now core }
{
    bucket.is_down(core) && is_caught_up(bucket, core)
}

// No split is open, and the core is a follower of an active slice that is not down, is active, and has no feed.
fn can_lead(bucket: &Bucket, core: CoreId) -> bool
    requires { IsSound bucket.now }
    ensures { IsTrue result ↔ CanLead bucket.now core }
{
    !bucket.is_down(core) && is_caught_up(bucket, core)
}

// No split is open, and the core is a follower of an active slice, is active, and has no feed.
fn is_caught_up(bucket: &Bucket, core: CoreId) -> bool
    requires { CoresAscend bucket.now.replicas }
    ensures { IsTrue result ↔ IsCaughtUp bucket.now core }
{
    bucket.phase == Phase::Idle && is_active_follower(bucket, core)
}

// The core is a follower of an active slice, is active, and has no feed.
fn is_active_follower(bucket: &Bucket, core: CoreId) -> bool
    requires { CoresAscend bucket.now.replicas }
    ensures { IsTrue result ↔ IsActiveFollower bucket.now core }
{
    is_follower(bucket, core) && is_unfed_and_active(bucket, core)
}

// The core is a follower of an active slice.
fn is_follower(bucket: &Bucket, core: CoreId) -> bool
    ensures { IsTrue result ↔ IsFollower bucket.now.map core }
{
    match bucket.map.by_id(core.slice) {
        Some(slice) => follows(slice, core.replica),
        None => false,
    }
}

// The slice is active, and has this replica beside its leader.
fn follows(slice: &Slice, replica: u8) -> bool
    ensures { IsTrue result ↔ ((slice.now.state ≡ states.Active) × (1 < replica) × (replica ≤ slice.now.replicas)) }
{
    slice.state == State::Active && replica > 1 && replica <= slice.replicas
}

// The core is there, is active, and has no feed.
fn is_unfed_and_active(bucket: &Bucket, core: CoreId) -> bool
    requires { CoresAscend bucket.now.replicas }
    ensures { IsTrue result ↔ (IsInMode bucket.now core Active × IsUnfed bucket.now core) }
{
    is_in_mode(bucket, core, Mode::Active) && !has_feed(bucket, core)
}

// The core has a feed.
fn has_feed(bucket: &Bucket, core: CoreId) -> bool
    ensures fed { IsTrue result ↔ CanFeed bucket.now core }
    ensures unfed { IsTrue (not result) ↔ IsUnfed bucket.now core }
{
    bucket.feeds.position(core).is_some()
}

// The core is there, in this mode.
fn is_in_mode(bucket: &Bucket, core: CoreId, mode: Mode) -> bool
    requires { CoresAscend bucket.now.replicas }
    ensures { IsTrue result ↔ IsInMode bucket.now core mode }
{
    match bucket.replicas.position(core) {
        Some(at) => bucket.replicas.get(at).mode() == mode,
        None => false,
    }
}

fn is_building(bucket: &Bucket) -> bool
    ensures { IsTrue result ↔ IsBuilding bucket.now }
{
    matches!(bucket.phase, Phase::Building { .. })
}

fn is_recovering(bucket: &Bucket) -> bool
    ensures { IsTrue result ↔ IsRecovering bucket.now }
{
    matches!(bucket.phase, Phase::Recovering { .. })
}

// The leader of each slice that a split is making is active.
fn are_led_actively(bucket: &Bucket) -> bool
    requires { HasCores bucket.now }
    ensures { IsTrue result ↔ AreLedActively bucket.now }
{
    for at in 0..bucket.map.len() {
        let slice = bucket.map.get(at).unwrap();
        if !is_led_actively(bucket, slice) {
            return false;
        }
    }
    true
}

// Where a split is making the slice its leader is there, and active.
fn is_led_actively(bucket: &Bucket, slice: &Slice) -> bool
    requires { CoresAscend bucket.now.replicas }
    ensures { IsTrue result ↔ IsLedActively bucket.now slice.now }
{
    !slice.state.is_forming() || is_replica_active(bucket, slice.id, 1)
}

// This replica of the slice is there, and active.
fn is_replica_active(bucket: &Bucket, slice: SliceId, replica: u8) -> bool
    requires names { CoresAscend bucket.now.replicas }
    requires counted { 0 < replica }
    ensures { IsTrue result ↔ IsThereActive bucket.now (slice.0, replica) }
{
    is_in_mode(bucket, CoreId { slice, replica }, Mode::Active)
}

// The core is a further replica of a slice that a split is making, and is not there.
fn is_missing(bucket: &Bucket, core: CoreId) -> bool
    ensures { IsTrue result ↔ ((sub : Slice) × IsMissing bucket.now core sub) }
{
    match bucket.map.by_id(core.slice) {
        Some(slice) => { may_join(slice, core.replica) && bucket.replicas.position(core).is_none() }
        None => false,
    }
}

// A split is making the slice, which is to have this replica beside its leader.
fn may_join(slice: &Slice, replica: u8) -> bool
    ensures { IsTrue result ↔ MayJoin slice.now replica }
{
    slice.state.is_forming() && replica > 1 && replica <= slice.replicas
}

// Every replica of every slice that a split is making is there, and active.
fn are_whole(bucket: &Bucket) -> bool
    requires { CoresAscend bucket.now.replicas }
    ensures { IsTrue result ↔ All (IsWholeSlice bucket.now) bucket.now.map }
{
    for at in 0..bucket.map.len() {
        let slice = bucket.map.get(at).unwrap();
        if !is_whole(bucket, slice) {
            return false;
        }
    }
    true
}

// Where a split is making the slice each of its replicas is there, and active.
fn is_whole(bucket: &Bucket, slice: &Slice) -> bool
    requires { CoresAscend bucket.now.replicas }
    ensures { IsTrue result ↔ IsWholeSlice bucket.now slice.now }
{
    !slice.state.is_forming() || has_all(bucket, slice)
}

// Every replica of the slice is there, and active.
fn has_all(bucket: &Bucket, slice: &Slice) -> bool
    requires { CoresAscend bucket.now.replicas }
    ensures { IsTrue result ↔ All (IsThereActive bucket.now) (slice_keys slice.now) }
{
    for below in 0..slice.replicas {
        if !is_replica_active(bucket, slice.id, below + 1) {
            return false;
        }
    }
    true
}

// The slice is there, and inactive.
fn is_inactive(bucket: &Bucket, slice: SliceId) -> bool
    ensures { IsTrue result ↔ IsInactive bucket.now.map slice }
{
    match bucket.map.by_id(slice) {
        Some(slice) => slice.state == State::Inactive,
        None => false,
    }
}
