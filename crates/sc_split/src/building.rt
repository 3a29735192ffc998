//! The cores of a split are made in all buckets, one bucket after another.

ghost use Rattle.std.specs.Prelude.{◌≡◌, ◌≤◌, ◌<◌, ◌+◌, ◌⊎◌, ℕ, Err, OnOk, IfErr};
ghost use Rattle.sc_cluster.specs.declared.slice.Slice.{Slice};
ghost use Rattle.sc_cluster.specs.declared.plan.SplitPlan.{SplitPlan};
ghost use Rattle.sc_keeper.specs.declared.part.Part.{Part};
ghost use Rattle.sc_keeper.specs.Conditions.{MayBegin, MayGrow};
ghost use Rattle.sc_collection.specs.Known.{OfBuckets};
ghost use Rattle.sc_split.specs.Buckets.{LeavesOthers, IsUnderway, HasGrown, HasNoRoomFor, first_cores};
ghost use Rattle.sc_split.specs.Stages.{OpenSplit, IsOpenIn, IsAtStage, IsUnbegun, Stage, filled, building, leaders_filled, recovering, whole, further_cores_of};
ghost use Rattle.sc_split.specs.declared.end.Fault.TheVariants as faults;
ghost use Rattle.sc_split.specs.Leaving.{known, begun_from, RestsWith, LeavesWith, HoldsBuckets, HoldsBucket};

use crate::bucket::{begin_in, grow_in, ready_in};
use crate::end::Fault;
use crate::filling::fill;
use sc_cluster::SplitPlan;
use sc_collection::Desk;
use sc_io::{Pace, SplitStep};
use sc_record::CoreId;
use std::alloc::Global;

// Begins the split in each bucket in turn, and asks the pace after each. Counts those in which it has begun.
fn begin_all<D: Desk, P: Pace>(
    alloc: Global,
    desk: &mut D,
    pace: &mut P,
    keepers: &mut D::Keepers,
    plan: &SplitPlan,
    begun: &mut u32,
) -> Result<(), Fault>
    requires rests { RestsWith D.Desk desk.old keepers.old }
    requires may { OfBuckets 0 (D.layout desk.old).buckets
        (λ b. MayBegin ((D.keeping desk.old keepers.old).part b) plan.now.parent plan.now.subs) }
    requires none { begun.old ≡ 0 }
    ensures leaves { HoldsBuckets D.Desk desk.old keepers.old desk.new keepers.new }
    ensures count { begun.new ≤ (D.layout desk.old).buckets }
    ensures opened { OfBuckets 0 begun.new (IsAtStage
        (begun_from D.Desk desk.old keepers.old plan.now)
        (building plan.now) (known D.Desk desk.new keepers.new)) }
    ensures unbegun { OfBuckets begun.new (D.layout desk.old).buckets (IsUnbegun
        (begun_from D.Desk desk.old keepers.old plan.now)
        (D.layout desk.old).first (known D.Desk desk.new keepers.new)) }
    ensures all { OnOk result (begun.new ≡ (D.layout desk.old).buckets) }
    ensures full { result ≡ Err Fault.LogFull → (b : ℕ) × (begun.new ≤ b) × (b < (D.layout desk.old).buckets)
        × HasNoRoomFor (D.layout desk.old) plan.now.subs ((D.seen desk.new).journals b) }
    ensures steady { OnOk result (P.stops pace.new ≡ P.stops pace.old) }
    ensures stopped { result ≡ Err Fault.Stopped → P.stops pace.old < P.stops pace.new }
    ensures no_fall { P.stops pace.old ≤ P.stops pace.new }
    ensures no_host { result ≡ Err Fault.Host → ⊥ }
{
    for b in 0..desk.buckets() {
        begin_one(alloc, desk, pace, keepers, b, plan, begun)?;
    }
    Ok(())
}

// Begins the split in one bucket, and asks the pace.
fn begin_one<D: Desk, P: Pace>(
    alloc: Global,
    desk: &mut D,
    pace: &mut P,
    keepers: &mut D::Keepers,
    b: u32,
    plan: &SplitPlan,
    begun: &mut u32,
) -> Result<(), Fault>
    requires within { b < (D.layout desk.old).buckets }
    requires rests { RestsWith D.Desk desk.old keepers.old }
    requires may { MayBegin ((D.keeping desk.old keepers.old).part b) plan.now.parent plan.now.subs }
    requires here { begun.old ≡ b }
    requires few { b + 1 < 4294967296 }
    ensures leaves { LeavesWith D.Desk desk.old desk.new keepers.new }
    ensures others { LeavesOthers b (known D.Desk desk.old keepers.old) (known D.Desk desk.new keepers.new) }
    ensures opened { begun.new ≡ b + 1 → IsAtStage
        (begun_from D.Desk desk.old keepers.old plan.now)
        (building plan.now) (known D.Desk desk.new keepers.new) b }
    ensures unbegun { begun.new ≡ b → IsUnbegun
        (begun_from D.Desk desk.old keepers.old plan.now)
        (D.layout desk.old).first (known D.Desk desk.new keepers.new) b }
    ensures count { (begun.new ≡ b) ⊎ (begun.new ≡ b + 1) }
    ensures all { OnOk result (begun.new ≡ b + 1) }
    ensures full { result ≡ Err Fault.LogFull → (begun.new ≡ b) × HasNoRoomFor (D.layout desk.old) plan.now.subs ((D.seen desk.new).journals b) }
    ensures steady { OnOk result (P.stops pace.new ≡ P.stops pace.old) }
    ensures stopped { result ≡ Err Fault.Stopped → P.stops pace.old < P.stops pace.new }
    ensures no_fall { P.stops pace.old ≤ P.stops pace.new }
    ensures no_host { result ≡ Err Fault.Host → ⊥ }
{
    begin_in(alloc, desk, keepers, b, plan)?;
    *begun = b + 1;
    ask(pace, SplitStep::Opened { bucket: b })
}

// Feeds these cores in each bucket, and has them replay what came meanwhile. A fault is that the pace has said stop.
fn fill_all<D: Desk, P: Pace>(
    desk: &mut D,
    pace: &mut P,
    keepers: &mut D::Keepers,
    cores: &[CoreId],
) -> Result<(), Fault>
    requires rests { RestsWith D.Desk desk.old keepers.old }
    requires stage { (split : OpenSplit) × (stage : Stage) × (stage.to_fill ≡ cores.now) × OfBuckets 0 (D.layout desk.old).buckets
        (IsAtStage split stage (known D.Desk desk.old keepers.old)) }
    ensures leaves { HoldsBuckets D.Desk desk.old keepers.old desk.new keepers.new }
    ensures opened { (split : OpenSplit) (stage : Stage) → stage.to_fill ≡ cores.now → OfBuckets 0 (D.layout desk.old).buckets
        (IsAtStage split stage (known D.Desk desk.old keepers.old))
        → OfBuckets 0 (D.layout desk.old).buckets (IsOpenIn split (known D.Desk desk.new keepers.new)) }
    ensures filled { OnOk result ((split : OpenSplit) (stage : Stage) → stage.to_fill ≡ cores.now → OfBuckets 0 (D.layout desk.old).buckets
        (IsAtStage split stage (known D.Desk desk.old keepers.old))
        → OfBuckets 0 (D.layout desk.old).buckets (IsAtStage split (filled stage) (known D.Desk desk.new keepers.new))) }
    ensures steady { OnOk result (P.stops pace.new ≡ P.stops pace.old) }
    ensures stopped { IfErr result (λ fault. (fault ≡ Fault.Stopped) × (P.stops pace.old < P.stops pace.new)) }
    ensures no_fall { P.stops pace.old ≤ P.stops pace.new }
{
    for b in 0..desk.buckets() {
        if !fill(desk, pace, keepers, b, cores) {
            return Err(Fault::Stopped);
        }
    }
    Ok(())
}

// The leaders of the subs are made in each bucket.
fn ready_all<D: Desk>(desk: &mut D, keepers: &mut D::Keepers)
    requires rests { RestsWith D.Desk desk.old keepers.old }
    requires stage { (split : OpenSplit) × OfBuckets 0 (D.layout desk.old).buckets
        (IsAtStage split (leaders_filled split.plan) (known D.Desk desk.old keepers.old)) }
    ensures leaves { HoldsBuckets D.Desk desk.old keepers.old desk.new keepers.new }
    ensures ready { (split : OpenSplit) → OfBuckets 0 (D.layout desk.old).buckets
        (IsAtStage split (leaders_filled split.plan) (known D.Desk desk.old keepers.old))
        → OfBuckets 0 (D.layout desk.old).buckets (IsAtStage split (recovering split.plan) (known D.Desk desk.new keepers.new)) }
{
    for b in 0..desk.buckets() {
        ready_in(desk, keepers, b);
    }
}

/// Begins the split in each bucket, and makes the leaders of its subs there. Counts the buckets in which it has begun.
pub(crate) fn lead_all<D: Desk, P: Pace>(
    alloc: Global,
    desk: &mut D,
    pace: &mut P,
    keepers: &mut D::Keepers,
    plan: &SplitPlan,
    leaders: &[CoreId],
    begun: &mut u32,
) -> Result<(), Fault>
    requires rests { RestsWith D.Desk desk.old keepers.old }
    requires may { OfBuckets 0 (D.layout desk.old).buckets
        (λ b. MayBegin ((D.keeping desk.old keepers.old).part b) plan.now.parent plan.now.subs) }
    requires none { begun.old ≡ 0 }
    requires leaders { leaders.now ≡ first_cores plan.now.subs }
    ensures leaves { HoldsBuckets D.Desk desk.old keepers.old desk.new keepers.new }
    ensures count { begun.new ≤ (D.layout desk.old).buckets }
    ensures opened { OfBuckets 0 begun.new (IsOpenIn
        (begun_from D.Desk desk.old keepers.old plan.now)
        (known D.Desk desk.new keepers.new)) }
    ensures unbegun { OfBuckets begun.new (D.layout desk.old).buckets (IsUnbegun
        (begun_from D.Desk desk.old keepers.old plan.now)
        (D.layout desk.old).first (known D.Desk desk.new keepers.new)) }
    ensures all { OnOk result (begun.new ≡ (D.layout desk.old).buckets) }
    ensures led { OnOk result (OfBuckets 0 (D.layout desk.old).buckets (IsAtStage
        (begun_from D.Desk desk.old keepers.old plan.now)
        (recovering plan.now) (known D.Desk desk.new keepers.new))) }
    ensures full { result ≡ Err Fault.LogFull → (b : ℕ) × (begun.new ≤ b) × (b < (D.layout desk.old).buckets)
        × HasNoRoomFor (D.layout desk.old) plan.now.subs ((D.seen desk.new).journals b) }
    ensures steady { OnOk result (P.stops pace.new ≡ P.stops pace.old) }
    ensures stopped { result ≡ Err Fault.Stopped → P.stops pace.old < P.stops pace.new }
    ensures no_fall { P.stops pace.old ≤ P.stops pace.new }
    ensures no_host { result ≡ Err Fault.Host → ⊥ }
{
    begin_all(alloc, desk, pace, keepers, plan, begun)?;
    fill_all(desk, pace, keepers, leaders)?;
    ready_all(desk, keepers);
    Ok(())
}

/// Has these further cores, all of the plan, join in each bucket, and fills them there. A fault is the pace's or that memory ran out.
pub(crate) fn follow_all<D: Desk, P: Pace>(
    alloc: Global,
    desk: &mut D,
    pace: &mut P,
    keepers: &mut D::Keepers,
    cores: &[CoreId],
) -> Result<(), Fault>
    requires rests { RestsWith D.Desk desk.old keepers.old }
    requires stage { (split : OpenSplit) × (further_cores_of split.plan ≡ cores.now) × OfBuckets 0 (D.layout desk.old).buckets
        (IsAtStage split (recovering split.plan) (known D.Desk desk.old keepers.old)) }
    ensures leaves { HoldsBuckets D.Desk desk.old keepers.old desk.new keepers.new }
    ensures opened { (split : OpenSplit) → further_cores_of split.plan ≡ cores.now → OfBuckets 0 (D.layout desk.old).buckets
        (IsAtStage split (recovering split.plan) (known D.Desk desk.old keepers.old))
        → OfBuckets 0 (D.layout desk.old).buckets (IsOpenIn split (known D.Desk desk.new keepers.new)) }
    ensures whole { OnOk result ((split : OpenSplit) → further_cores_of split.plan ≡ cores.now → OfBuckets 0 (D.layout desk.old).buckets
        (IsAtStage split (recovering split.plan) (known D.Desk desk.old keepers.old))
        → OfBuckets 0 (D.layout desk.old).buckets (IsAtStage split (whole split.plan) (known D.Desk desk.new keepers.new))) }
    ensures steady { OnOk result (P.stops pace.new ≡ P.stops pace.old) }
    ensures stopped { result ≡ Err Fault.Stopped → P.stops pace.old < P.stops pace.new }
    ensures no_fall { P.stops pace.old ≤ P.stops pace.new }
    ensures faults { IfErr result (λ fault. (fault ≡ Fault.Stopped) ⊎ (fault ≡ Fault.Memory)) }
{
    for b in 0..desk.buckets() {
        follow_one(alloc, desk, pace, keepers, b, cores)?;
    }
    Ok(())
}

// Has these further cores, all of the plan, join in one bucket, and fills them there.
fn follow_one<D: Desk, P: Pace>(
    alloc: Global,
    desk: &mut D,
    pace: &mut P,
    keepers: &mut D::Keepers,
    b: u32,
    cores: &[CoreId],
) -> Result<(), Fault>
    requires within { b < (D.layout desk.old).buckets }
    requires rests { RestsWith D.Desk desk.old keepers.old }
    requires stage { (split : OpenSplit) × (further_cores_of split.plan ≡ cores.now)
        × IsAtStage split (recovering split.plan) (known D.Desk desk.old keepers.old) b }
    ensures leaves { LeavesWith D.Desk desk.old desk.new keepers.new }
    ensures others { LeavesOthers b (known D.Desk desk.old keepers.old) (known D.Desk desk.new keepers.new) }
    ensures opened { (split : OpenSplit) → IsOpenIn split (known D.Desk desk.old keepers.old) b
        → IsOpenIn split (known D.Desk desk.new keepers.new) b }
    ensures whole { OnOk result ((split : OpenSplit) → further_cores_of split.plan ≡ cores.now
        → IsAtStage split (recovering split.plan) (known D.Desk desk.old keepers.old) b
        → IsAtStage split (whole split.plan) (known D.Desk desk.new keepers.new) b) }
    ensures steady { OnOk result (P.stops pace.new ≡ P.stops pace.old) }
    ensures stopped { result ≡ Err Fault.Stopped → P.stops pace.old < P.stops pace.new }
    ensures no_fall { P.stops pace.old ≤ P.stops pace.new }
    ensures faults { IfErr result (λ fault. (fault ≡ Fault.Stopped) ⊎ (fault ≡ Fault.Memory)) }
{
    for core in cores {
        join_one(alloc, desk, pace, keepers, b, *core)?;
    }
    if fill(desk, pace, keepers, b, cores) {
        Ok(())
    } else {
        Err(Fault::Stopped)
    }
}

// Has a further core of the plan join in one bucket, and asks the pace.
fn join_one<D: Desk, P: Pace>(
    alloc: Global,
    desk: &mut D,
    pace: &mut P,
    keepers: &mut D::Keepers,
    b: u32,
    core: CoreId,
) -> Result<(), Fault>
    requires within { b < (D.layout desk.old).buckets }
    requires rests { RestsWith D.Desk desk.old keepers.old }
    requires may { (sub : Slice) × MayGrow ((D.keeping desk.old keepers.old).part b) core sub }
    ensures leaves { HoldsBucket D.Desk b desk.old keepers.old desk.new keepers.new }
    ensures grown { OnOk result (HasGrown ((D.keeping desk.old keepers.old).part b) core ((D.keeping desk.new keepers.new).part b)) }
    ensures underway { (base : Part) (plan : SplitPlan) → IsUnderway base plan ((D.keeping desk.old keepers.old).part b)
        → IsUnderway base plan ((D.keeping desk.new keepers.new).part b) }
    ensures steady { OnOk result (P.stops pace.new ≡ P.stops pace.old) }
    ensures stopped { result ≡ Err Fault.Stopped → P.stops pace.old < P.stops pace.new }
    ensures no_fall { P.stops pace.old ≤ P.stops pace.new }
    ensures faults { IfErr result (λ fault. (fault ≡ Fault.Stopped) ⊎ (fault ≡ Fault.Memory)) }
{
    grow_in(alloc, desk, keepers, b, core)?;
    ask(pace, SplitStep::Grown { bucket: b })
}

/// Asks the pace whether the split goes on.
pub(crate) fn ask<P: Pace>(pace: &mut P, step: SplitStep) -> Result<(), Fault>
    ensures steady { OnOk result (P.stops pace.new ≡ P.stops pace.old) }
    ensures stopped { IfErr result (λ fault. (fault ≡ Fault.Stopped) × (P.stops pace.old < P.stops pace.new)) }
    ensures no_fall { P.stops pace.old ≤ P.stops pace.new }
{
    if pace.between(step) {
        Ok(())
    } else {
        Err(Fault::Stopped)
    }
}
