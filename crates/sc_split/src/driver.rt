//! A split of a shard, as a whole.

ghost use Rattle.std.specs.Prelude.{◌≡◌, ◌≤◌, ◌<◌, ◌+◌, ◌⊎◌, ℕ, Bool, List, [], length, map, take, Option, Err, OnOk, IfErr};
ghost use Rattle.sc_record.specs.declared.slice.SubSlice.{SubSlice};
ghost use Rattle.sc_cluster.specs.declared.plan.SplitPlan.{SplitPlan};
ghost use Rattle.sc_handover.specs.Made.{first_core};
ghost use Rattle.sc_keeper.specs.Conditions.{MayBegin};
ghost use Rattle.sc_io.specs.declared.hosts.Host.{Host};
ghost use Rattle.sc_seen.specs.Seen.{Extends};
ghost use Rattle.sc_seen.specs.declared.board.BoardEntry.{BoardEntry};
ghost use Rattle.sc_board.specs.Splits.{IsCut, asked_for};
ghost use Rattle.sc_collection.specs.Kept.{trail_room};
ghost use Rattle.sc_collection.specs.Known.{OfBuckets};
ghost use Rattle.sc_split.specs.Buckets.{HasNoRoomFor};
ghost use Rattle.sc_cores.specs.Cores.{Outside, HasStarted, StopsEach};
ghost use Rattle.sc_collection.specs.Resting.{Rests, looked_at, LeavesAtRest};
ghost use Rattle.sc_split.specs.Outside.{cores_of};
ghost use Rattle.sc_split.specs.Stages.{OpenSplit, IsOpenIn, IsUnbegun, IsAtStage, recovering, whole, further_cores_of};
ghost use Rattle.sc_split.specs.Splits.{IsSplit};
ghost use Rattle.sc_split.specs.Driving.{HasBegunOnBoard, IsHalted, IsWholeSplit, Builds, IsFault, GivesUp, Closes, Finishes, IsSplitDone, IsGivenUpOnBoard, IsEndOf};
ghost use Rattle.sc_split.specs.Leaving.{known, begun_from, RestsWith, LeavesDesk, LeavesWith, HoldsBuckets, moment_at, StartsBeside};

use crate::board::{note_done, note_failed, note_recovering, open};
use crate::building::{ask, follow_all, lead_all};
use crate::cores::{NewCores, start_cores, stop_all};
use crate::end::{Fault, SplitEnd, refusal};
use crate::ending::{abort_all, switch_all};
use sc_board::Cut;
use sc_cluster::SplitPlan;
use sc_collection::{Commits, Desk, Trail, commit_all};
use sc_io::{Hosts, Pace, SplitStep};
use sc_record::{List, Text};
use std::alloc::Global;

// How far a split is: how many of its cores are started, and in how many buckets it has begun.
#[derive(Clone, Copy)]
struct Progress {
    started: usize,
    begun: u32,
}

/// Splits the shard of this name: makes the cores of its subs in every bucket, beside all that others do there meanwhile, then puts the
/// subs in its place, and commits every bucket (Solr Reference Guide, "Shard Management", SPLITSHARD).
///
/// Each step of a bucket is one hold of it, and each of the board one hold of the board. The first of the board is a stop of the trail,
/// and so is the commit of each bucket. The pace is asked after each step that a `SplitStep` names, while nothing is held, and not after
/// the first switch. Memory is asked for before that too. Once the split has begun on the board, whatever refuses it has it given up in
/// each bucket in which it has begun, noted on the board, and each core stopped that was started, also where stopping one fails: the
/// answer is the same.
pub fn split<D: Desk, H: Hosts, P: Pace>(
    alloc: Global,
    desk: &mut D,
    hosts: &mut H,
    pace: &mut P,
    trail: &mut Trail,
    shard: &str,
    cut: &Cut,
) -> SplitEnd
    requires rest { Rests D.Desk desk.old }
    requires cut { IsCut cut.now }
    requires room { length trail.old.stops + 1 + (D.layout desk.old).buckets ≤ trail_room }
    ensures split { IsSplit (D.layout desk.old) (asked_for shard.now cut.now)
        (moment_at D.Desk H.Hosts P.Pace desk.old hosts.old pace.old trail.old.stops)
        (moment_at D.Desk H.Hosts P.Pace desk.new hosts.new pace.new trail.new.stops) result }
    ensures leaves { LeavesAtRest D.Desk desk.old trail.old desk.new trail.new }
{
    match open(alloc, desk, trail, shard, cut) {
        Ok((plan, keepers)) => run(alloc, desk, hosts, pace, trail, keepers, &plan),
        Err(fault) => refusal(fault),
    }
}

// Carries out a split that has begun on the board.
fn run<D: Desk, H: Hosts, P: Pace>(
    alloc: Global,
    desk: &mut D,
    hosts: &mut H,
    pace: &mut P,
    trail: &mut Trail,
    mut keepers: D::Keepers,
    plan: &SplitPlan,
) -> SplitEnd
    requires rests { RestsWith D.Desk desk.old keepers }
    requires begun { (entries : List BoardEntry)
        × HasBegunOnBoard (D.layout desk.old) plan.now entries (known D.Desk desk.old keepers) }
    requires room { length trail.old.stops + (D.layout desk.old).buckets ≤ trail_room }
    ensures went { let old = moment_at D.Desk H.Hosts P.Pace desk.old hosts.old pace.old trail.old.stops in
        let new = moment_at D.Desk H.Hosts P.Pace desk.new hosts.new pace.new trail.new.stops in
        IsSplitDone (D.layout desk.old) plan.now old new result ⊎ IsGivenUpOnBoard (D.layout desk.old) plan.now old new result }
    ensures leaves { LeavesAtRest D.Desk desk.old trail.old desk.new trail.new }
{
    let cores = match NewCores::of(alloc, desk.nodes(), plan) {
        Ok(cores) => cores,
        Err(_) => {
            fail_unbegun(desk, keepers);
            return SplitEnd::Memory;
        }
    };
    let mut progress = Progress {
        started: 0,
        begun: 0,
    };
    match build(
        alloc,
        desk,
        hosts,
        pace,
        &mut keepers,
        plan,
        &cores,
        &mut progress,
    ) {
        Ok(()) => finish(alloc, desk, trail, keepers, cores.subs),
        Err(fault) => give_up(desk, hosts, keepers, cores, progress, fault),
    }
}

// Makes all cores of the subs, up to where each bucket may be switched.
fn build<D: Desk, H: Hosts, P: Pace>(
    alloc: Global,
    desk: &mut D,
    hosts: &mut H,
    pace: &mut P,
    keepers: &mut D::Keepers,
    plan: &SplitPlan,
    cores: &NewCores,
    progress: &mut Progress,
) -> Result<(), Fault>
    requires rests { RestsWith D.Desk desk.old keepers.old }
    requires begun { (entries : List BoardEntry)
        × HasBegunOnBoard (D.layout desk.old) plan.now entries (known D.Desk desk.old keepers.old) }
    requires leaders { cores.now.leaders ≡ map first_core plan.now.subs }
    requires followers { cores.now.followers ≡ further_cores_of plan.now }
    requires few { length cores.now.hosts < 4294967296 }
    requires within { length cores.now.leaders ≤ length cores.now.hosts }
    requires start { (progress.old.started ≡ 0) × (progress.old.begun ≡ 0) }
    ensures leaves { LeavesWith D.Desk desk.old desk.new keepers.new }
    ensures count { progress.new.begun ≤ (D.layout desk.old).buckets }
    ensures built { (entries : List BoardEntry)
        → HasBegunOnBoard (D.layout desk.old) plan.now entries (known D.Desk desk.old keepers.old)
        → Builds (D.layout desk.old) (begun_from D.Desk desk.old keepers.old plan.now) entries progress.new.begun
        (known D.Desk desk.old keepers.old) (known D.Desk desk.new keepers.new) }
    ensures whole { OnOk result ((entries : List BoardEntry)
        → HasBegunOnBoard (D.layout desk.old) plan.now entries (known D.Desk desk.old keepers.old)
        → IsWholeSplit (D.layout desk.old) (begun_from D.Desk desk.old keepers.old plan.now) entries
        (known D.Desk desk.new keepers.new)) }
    ensures some { progress.new.started ≤ length cores.now.hosts }
    ensures all { OnOk result (progress.new.started ≡ length cores.now.hosts) }
    ensures started { (before : Option (List Host)) → HasStarted cores.now.hosts 0 before (H.started hosts.old)
        → HasStarted cores.now.hosts progress.new.started before (H.started hosts.new) }
    ensures steady { OnOk result ((H.start_faults hosts.new ≡ H.start_faults hosts.old) × (P.stops pace.new ≡ P.stops pace.old)) }
    ensures beside { StartsBeside H.Hosts P.Pace hosts.old pace.old hosts.new pace.new }
    ensures next { result ≡ Err Fault.Host → progress.new.started < length cores.now.hosts }
    ensures cause { IfErr result (IsFault (D.layout desk.old) plan.now
        (moment_at D.Desk H.Hosts P.Pace desk.old hosts.old pace.old [])
        (moment_at D.Desk H.Hosts P.Pace desk.new hosts.new pace.new [])) }
{
    lead(alloc, desk, hosts, pace, keepers, plan, cores, progress)?;
    note_recovering(desk);
    follow(
        alloc,
        desk,
        hosts,
        pace,
        keepers,
        cores,
        &mut progress.started,
    )
}

// Makes the leaders of the subs in each bucket.
fn lead<D: Desk, H: Hosts, P: Pace>(
    alloc: Global,
    desk: &mut D,
    hosts: &mut H,
    pace: &mut P,
    keepers: &mut D::Keepers,
    plan: &SplitPlan,
    cores: &NewCores,
    progress: &mut Progress,
) -> Result<(), Fault>
    requires rests { RestsWith D.Desk desk.old keepers.old }
    requires may { OfBuckets 0 (D.layout desk.old).buckets
        (λ b. MayBegin ((D.keeping desk.old keepers.old).part b) plan.now.parent plan.now.subs) }
    requires leaders { cores.now.leaders ≡ map first_core plan.now.subs }
    requires few { length cores.now.hosts < 4294967296 }
    requires within { length cores.now.leaders ≤ length cores.now.hosts }
    requires start { (progress.old.started ≡ 0) × (progress.old.begun ≡ 0) }
    ensures leaves { HoldsBuckets D.Desk desk.old keepers.old desk.new keepers.new }
    ensures count { progress.new.begun ≤ (D.layout desk.old).buckets }
    ensures opened { OfBuckets 0 progress.new.begun (IsOpenIn
        (begun_from D.Desk desk.old keepers.old plan.now)
        (known D.Desk desk.new keepers.new)) }
    ensures unbegun { OfBuckets progress.new.begun (D.layout desk.old).buckets (IsUnbegun
        (begun_from D.Desk desk.old keepers.old plan.now)
        (D.layout desk.old).first (known D.Desk desk.new keepers.new)) }
    ensures everywhere { OnOk result (progress.new.begun ≡ (D.layout desk.old).buckets) }
    ensures led { OnOk result (OfBuckets 0 (D.layout desk.old).buckets (IsAtStage
        (begun_from D.Desk desk.old keepers.old plan.now)
        (recovering plan.now) (known D.Desk desk.new keepers.new))) }
    ensures some { progress.new.started ≤ length cores.now.hosts }
    ensures started { (before : Option (List Host)) → HasStarted cores.now.hosts 0 before (H.started hosts.old)
        → HasStarted cores.now.hosts progress.new.started before (H.started hosts.new) }
    ensures steady { OnOk result ((H.start_faults hosts.new ≡ H.start_faults hosts.old) × (P.stops pace.new ≡ P.stops pace.old)) }
    ensures beside { StartsBeside H.Hosts P.Pace hosts.old pace.old hosts.new pace.new }
    ensures full { result ≡ Err Fault.LogFull → (b : ℕ) × (progress.new.begun ≤ b) × (b < (D.layout desk.old).buckets)
        × HasNoRoomFor (D.layout desk.old) plan.now.subs ((D.seen desk.new).journals b) }
    ensures failed { result ≡ Err Fault.Host
        → (progress.new.started < length cores.now.hosts) × (H.start_faults hosts.old < H.start_faults hosts.new) }
    ensures stopped { result ≡ Err Fault.Stopped → P.stops pace.old < P.stops pace.new }
{
    ask(pace, SplitStep::Begun)?;
    start_cores(
        hosts,
        pace,
        cores.hosts.as_slice(),
        &mut progress.started,
        cores.leaders.len(),
    )?;
    lead_all(
        alloc,
        desk,
        pace,
        keepers,
        plan,
        cores.leaders.as_slice(),
        &mut progress.begun,
    )
}

// Has the further replicas of the subs join in each bucket.
fn follow<D: Desk, H: Hosts, P: Pace>(
    alloc: Global,
    desk: &mut D,
    hosts: &mut H,
    pace: &mut P,
    keepers: &mut D::Keepers,
    cores: &NewCores,
    started: &mut usize,
) -> Result<(), Fault>
    requires rests { RestsWith D.Desk desk.old keepers.old }
    requires stage { (split : OpenSplit) × (further_cores_of split.plan ≡ cores.now.followers) × OfBuckets 0 (D.layout desk.old).buckets
        (IsAtStage split (recovering split.plan) (known D.Desk desk.old keepers.old)) }
    requires few { length cores.now.hosts < 4294967296 }
    requires some { started.old ≤ length cores.now.hosts }
    ensures leaves { HoldsBuckets D.Desk desk.old keepers.old desk.new keepers.new }
    ensures opened { (split : OpenSplit) → further_cores_of split.plan ≡ cores.now.followers → OfBuckets 0 (D.layout desk.old).buckets
        (IsAtStage split (recovering split.plan) (known D.Desk desk.old keepers.old))
        → OfBuckets 0 (D.layout desk.old).buckets (IsOpenIn split (known D.Desk desk.new keepers.new)) }
    ensures whole { OnOk result ((split : OpenSplit) → further_cores_of split.plan ≡ cores.now.followers
        → OfBuckets 0 (D.layout desk.old).buckets
        (IsAtStage split (recovering split.plan) (known D.Desk desk.old keepers.old))
        → OfBuckets 0 (D.layout desk.old).buckets (IsAtStage split (whole split.plan) (known D.Desk desk.new keepers.new))) }
    ensures some { started.new ≤ length cores.now.hosts }
    ensures all { OnOk result (started.new ≡ length cores.now.hosts) }
    ensures started { (before : Option (List Host)) → HasStarted cores.now.hosts started.old before (H.started hosts.old)
        → HasStarted cores.now.hosts started.new before (H.started hosts.new) }
    ensures steady { OnOk result ((H.start_faults hosts.new ≡ H.start_faults hosts.old) × (P.stops pace.new ≡ P.stops pace.old)) }
    ensures beside { StartsBeside H.Hosts P.Pace hosts.old pace.old hosts.new pace.new }
    ensures not_full { result ≡ Err Fault.LogFull → ⊥ }
    ensures failed { result ≡ Err Fault.Host
        → (started.new < length cores.now.hosts) × (H.start_faults hosts.old < H.start_faults hosts.new) }
    ensures stopped { result ≡ Err Fault.Stopped → P.stops pace.old < P.stops pace.new }
{
    ask(pace, SplitStep::Recovering)?;
    let all = cores.hosts.as_slice();
    start_cores(hosts, pace, all, started, all.len())?;
    follow_all(alloc, desk, pace, keepers, cores.followers.as_slice())?;
    ask(pace, SplitStep::BeforeSwitch)
}

// Puts the subs in their parent's place, and commits.
fn finish<D: Desk>(
    alloc: Global,
    desk: &mut D,
    trail: &mut Trail,
    keepers: D::Keepers,
    subs: List<Text>,
) -> SplitEnd
    requires rests { RestsWith D.Desk desk.old keepers }
    requires whole { (split : OpenSplit) × (entries : List BoardEntry)
        × IsWholeSplit (D.layout desk.old) split entries (known D.Desk desk.old keepers) }
    requires room { length trail.old.stops + (D.layout desk.old).buckets ≤ trail_room }
    ensures finished { (split : OpenSplit) (entries : List BoardEntry)
        → IsWholeSplit (D.layout desk.old) split entries (known D.Desk desk.old keepers)
        → subs ≡ map (λ (sub : SubSlice). sub.name) split.plan.subs
        → Finishes (D.layout desk.old) split.plan split.base.seen (looked_at D.Desk desk.old trail.old)
        (looked_at D.Desk desk.new trail.new) result }
    ensures leaves { LeavesAtRest D.Desk desk.old trail.old desk.new trail.new }
{
    close(desk, keepers);
    SplitEnd::Done {
        subs,
        committed: Commits::from(commit_all(alloc, desk, trail)),
    }
}

// Puts the subs in their parent's place in each bucket, and notes on the board that the split is done.
fn close<D: Desk>(desk: &mut D, mut keepers: D::Keepers)
    requires rests { RestsWith D.Desk desk.old keepers }
    requires whole { (split : OpenSplit) × (entries : List BoardEntry)
        × IsWholeSplit (D.layout desk.old) split entries (known D.Desk desk.old keepers) }
    ensures closed { (split : OpenSplit) (entries : List BoardEntry)
        → IsWholeSplit (D.layout desk.old) split entries (known D.Desk desk.old keepers)
        → Closes (D.layout desk.old) split.plan split.base.seen (D.seen desk.old) (D.seen desk.new) }
    ensures leaves { LeavesDesk D.Desk desk.old desk.new }
{
    switch_all(desk, &mut keepers);
    note_done(desk, keepers);
}

// Leaves the map as it was before the split, and stops its cores.
fn give_up<D: Desk, H: Hosts>(
    desk: &mut D,
    hosts: &mut H,
    mut keepers: D::Keepers,
    cores: NewCores,
    progress: Progress,
    fault: Fault,
) -> SplitEnd
    requires rests { RestsWith D.Desk desk.old keepers }
    requires halted { (split : OpenSplit) × (entries : List BoardEntry) × (recovered : Bool) × IsHalted (D.layout desk.old) split entries recovered
        progress.begun (known D.Desk desk.old keepers) }
    requires count { progress.begun ≤ (D.layout desk.old).buckets }
    requires started { progress.started ≤ length cores.hosts }
    requires host { fault ≡ Fault.Host → progress.started < length cores.hosts }
    ensures given_up { (split : OpenSplit) (entries : List BoardEntry) (recovered : Bool) → IsHalted (D.layout desk.old) split entries recovered
        progress.begun (known D.Desk desk.old keepers)
        → GivesUp (D.layout desk.old) split.plan split.base.seen (D.seen desk.old) (D.seen desk.new) }
    ensures end { IsEndOf cores.hosts progress.started fault result }
    ensures leaves { LeavesDesk D.Desk desk.old desk.new }
    ensures stopped { (failed : Option ℕ) × StopsEach (take progress.started cores.hosts) (H.started hosts.old) (H.started hosts.new)
        (H.stop_faults hosts.old) (H.stop_faults hosts.new) failed }
    ensures no_fall { H.stop_faults hosts.old ≤ H.stop_faults hosts.new }
    ensures other_count { H.start_faults hosts.new ≡ H.start_faults hosts.old }
    ensures reached { H.reached hosts.new ≡ H.reached hosts.old }
{
    abort_all(desk, &mut keepers, progress.begun);
    note_failed(desk, keepers);
    stop_all(hosts, &cores.hosts.as_slice()[..progress.started]);
    end_of(fault, cores, progress.started)
}

// Leaves the map as it was before a split that has not begun in any bucket.
fn fail_unbegun<D: Desk>(desk: &mut D, keepers: D::Keepers)
    requires rests { RestsWith D.Desk desk.old keepers }
    requires begun { (plan : SplitPlan) × (entries : List BoardEntry)
        × HasBegunOnBoard (D.layout desk.old) plan entries (known D.Desk desk.old keepers) }
    ensures given_up { (plan : SplitPlan) (entries : List BoardEntry)
        → HasBegunOnBoard (D.layout desk.old) plan entries (known D.Desk desk.old keepers)
        → GivesUp (D.layout desk.old) plan (D.seen desk.old) (D.seen desk.old) (D.seen desk.new) }
    ensures leaves { LeavesDesk D.Desk desk.old desk.new }
{
    note_failed(desk, keepers);
}

// What a split that is given up for this reason came to, once so many of its cores were started.
fn end_of(fault: Fault, cores: NewCores, started: usize) -> SplitEnd
    requires host { fault ≡ Fault.Host → started < length cores.hosts }
    ensures { IsEndOf cores.hosts started fault result }
{
    match fault {
        Fault::LogFull => SplitEnd::LogFull,
        Fault::Host => SplitEnd::HostFault {
            core: cores.hosts.into_vec().swap_remove(started).core,
        },
        Fault::Stopped => SplitEnd::Stopped,
        Fault::Memory => SplitEnd::Memory,
    }
}
