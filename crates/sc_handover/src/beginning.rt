ghost use Rattle.std.specs.Prelude.{◌≡◌, ◌<◌, ◌≤◌, ◌+◌, ◌^◌, ◌↔◌, Err, [], ◌∷◌, ◌++◌, length, map, Contains, IfOk, OnOk, OnErr};
ghost use Rattle.std.specs.List.{AllZip};
ghost use Rattle.std.specs.Arc.{arc_value};
ghost use Rattle.sc_journal.specs.Splits.{entries_of_split};
ghost use Rattle.sc_replicas.specs.Cores.{without_room};
ghost use Rattle.sc_replicas.specs.declared.standing.Standing.{Standing};
ghost use Rattle.sc_bucket.specs.Room.{BucketHasRoom, BucketIsFull};
ghost use Rattle.sc_bucket.specs.Pending.{new_feed};
ghost use Rattle.sc_bucket.specs.Sound.{IsSound};
ghost use Rattle.sc_bucket.specs.Events.{IsSameButRoom};
ghost use Rattle.sc_handover.specs.Conditions.{CanBegin};
ghost use Rattle.sc_handover.specs.Made.{first_core, sub_range, empty_core, first_feed, IsRoomyFor};
ghost use Rattle.sc_handover.specs.Events.{Begins};
ghost use Rattle.sc_handover.specs.Preparing.{IsPreparedFor};

use sc_bucket::{Bucket, Feed, Feeds, Phase, hand_on, searchers_at};
use sc_cluster::{ClusterMap, SplitPlan};
use sc_hash::Range;
use sc_record::{CloneIn, CoreId, Entry, List, SliceId, SubSlice};
use sc_replica::Replica;
use sc_replicas::{Standing, searcher_for};
use sc_snapshot::Rows;
use sc_ulog::Mode;
use std::alloc::{AllocError, Global};
use std::sync::Arc;
use thiserror::Error;

/// Why a split did not begin. The bucket is as it was, but for room in memory.
#[derive(Clone, Copy, Debug, PartialEq, Eq, Error)]
pub enum BeginFault {
    /// The journal has no room for the entry that says so and for those that it owes then.
    #[error("the update log is full")]
    LogFull,
    #[error("out of memory")]
    Memory,
}

impl From<AllocError> for BeginFault {
    ghost use Rattle.std.specs.Prelude.{◌≡◌};
    ghost use Rattle.sc_handover.specs.declared.beginning.BeginFault.TheVariants as faults;

    ghost from_gives = { λ _ fault. fault ≡ faults.Memory };

    fn from(_: AllocError) -> BeginFault {
        BeginFault::Memory
    }
}

/// Begins the split of the plan, which commits too. The subs join the map in construction, each with its leader, which is fed from the
/// parent's cells as they are. All memory is taken first; after an error the bucket is as it was, but for room in memory.
pub fn begin(alloc: Global, bucket: &mut Bucket, plan: &SplitPlan) -> Result<(), BeginFault>
    requires sound { IsSound bucket.old }
    requires can { CanBegin bucket.old plan.now.parent plan.now.subs }
    ensures sound { IsSound bucket.new }
    ensures begun { OnOk result (Begins bucket.old plan.now.parent plan.now.subs bucket.new) }
    ensures refused { OnErr result (IsSameButRoom bucket.old bucket.new) }
    ensures full { (result ≡ Err BeginFault.LogFull) ↔ BucketIsFull (entries_of_split plan.now.subs) bucket.old }
{
    let entries = bucket.owed + entries_of_split(plan.subs.as_slice());
    if bucket.limit < bucket.entries() + entries {
        return Err(BeginFault::LogFull);
    }
    bucket.journal.reserve(entries as usize)?;
    let beginning = prepare(alloc, bucket, plan)?;
    put_begun(bucket, plan.parent, beginning)?;
    Ok(())
}

// What a split begins with.
#[derive(Drop)]
struct Beginning {
    subs: List<SubSlice>,
    // the map with the subs
    slices: ClusterMap,
    // the leaders of the subs, and what they are fed from
    cores: Vec<Replica>,
    feeds: Vec<Feed>,
    // the searchers, and those that the switch leaves
    searchers: List<Standing>,
    spares: List<Standing>,
}

// Makes what the split of the plan begins with. The bucket is only read.
fn prepare(alloc: Global, bucket: &Bucket, plan: &SplitPlan) -> Result<Beginning, AllocError>
    requires sound { IsSound bucket.now }
    requires can { CanBegin bucket.now plan.now.parent plan.now.subs }
    ensures subs { IfOk result (λ beginning. beginning.subs ≡ plan.now.subs) }
    ensures prepared { IfOk result (IsPreparedFor bucket.now plan.now.parent) }
{
    let searchers = searchers_at(alloc, bucket)?;
    let snapshot = snapshot_of(alloc, &searchers, plan.parent)?;
    let (cores, feeds) = made(alloc, plan.subs.as_slice(), &snapshot)?;
    let mut slices = bucket.map.clone_in(alloc)?;
    slices.begin(plan)?;
    let spares = hand_on(alloc, &slices, plan.parent, &searchers)?;
    let subs = plan.subs.clone_in(alloc)?;
    Ok(Beginning {
        subs,
        slices,
        cores,
        feeds,
        searchers,
        spares,
    })
}

// Puts the entry that begins the split into the journal, with all that was made for it. After an error the bucket is as it was: memory
// was refused.
fn put_begun(bucket: &mut Bucket, parent: SliceId, beginning: Beginning) -> Result<(), AllocError>
    requires sound { IsSound bucket.old }
    requires can { CanBegin bucket.old parent beginning.subs }
    requires memory { bucket.old.owed + entries_of_split beginning.subs ≤ bucket.old.journal.room }
    requires room { BucketHasRoom (entries_of_split beginning.subs) bucket.old }
    requires prepared { IsPreparedFor bucket.old parent beginning }
    ensures sound { IsSound bucket.new }
    ensures begun { OnOk result (Begins bucket.old parent beginning.subs bucket.new) }
    ensures refused { OnErr result (bucket.new ≡ bucket.old) }
{
    bucket.replicas.append(beginning.cores)?;
    bucket.owed += entries_of_split(beginning.subs.as_slice()) - 1;
    bucket.map = beginning.slices;
    bucket.feeds = Feeds::from_vec(beginning.feeds);
    bucket.searchers = beginning.searchers;
    bucket.spares = Some(beginning.spares);
    bucket.phase = Phase::Building { parent };
    bucket.journal.append(Entry::Begun {
        parent,
        subs: beginning.subs,
    });
    Ok(())
}

// How many entries a split into these slices takes: that it begins, its end and that of its parent, and one of each of their followers.
fn entries_of_split(subs: &[SubSlice]) -> u64
    requires few { length subs.now ≤ 256 }
    ensures count { result ≡ entries_of_split subs.now }
    ensures most { result < 2 ^ 16 }
{
    let mut entries = 3;
    for sub in subs {
        entries += u64::from(sub.replicas - 1);
    }
    entries
}

// The rows that the searcher of this slice looks at, for feeds.
fn snapshot_of(
    alloc: Global,
    searchers: &List<Standing>,
    slice: SliceId,
) -> Result<Arc<Rows>, AllocError>
    requires { Contains (map (λ (searcher : Standing). searcher.slice) searchers.now) slice }
    ensures { IfOk result (λ snapshot. (searcher : Standing) × Contains searchers.now searcher × (searcher.slice ≡ slice)
        × (arc_value snapshot ≡ arc_value searcher.snapshot)) }
{
    let rows = searcher_for(searchers, slice).snapshot.share_rows()?;
    Ok(Arc::new(alloc, rows)?)
}

// The leaders of the subs, each with room for all that it is to be fed, and their feeds.
fn made(
    alloc: Global,
    subs: &[SubSlice],
    snapshot: &Arc<Rows>,
) -> Result<(Vec<Replica>, Vec<Feed>), AllocError>
    ensures cores { IfOk result (λ made. map without_room made.0.items ≡ map (λ sub. empty_core (first_core sub)) subs.now) }
    ensures feeds { IfOk result (λ made. made.1.items ≡ map (first_feed (arc_value snapshot.now)) subs.now) }
    ensures roomy { IfOk result (λ made. AllZip IsRoomyFor made.1.items made.0.items) }
{
    let mut cores = Vec::new(alloc);
    let mut feeds = Vec::new(alloc);
    for sub in subs {
        let (core, feed) = core_of(alloc, sub, snapshot)?;
        cores.push(core)?;
        feeds.push(feed)?;
    }
    Ok((cores, feeds))
}

// The leader of a sub, with room for all that it is to be fed, and its feed.
fn core_of(
    alloc: Global,
    sub: &SubSlice,
    snapshot: &Arc<Rows>,
) -> Result<(Replica, Feed), AllocError>
    ensures core { IfOk result (λ made. without_room made.0 ≡ empty_core (first_core sub.now)) }
    ensures feed { IfOk result (λ made. made.1 ≡ first_feed (arc_value snapshot.now) sub.now) }
    ensures roomy { IfOk result (λ made. IsRoomyFor made.1 made.0) }
{
    empty_fed(
        alloc,
        first_core(sub),
        range_of(sub),
        Arc::try_clone(snapshot)?,
    )
}

// The name of a sub's leader.
fn first_core(sub: &SubSlice) -> CoreId
    ensures { result ≡ first_core sub.now }
{
    CoreId::leader(sub.id)
}

// A sub's range.
fn range_of(sub: &SubSlice) -> Range
    ensures { result ≡ sub_range sub.now }
{
    Range {
        min: sub.min,
        max: sub.max,
    }
}

/// A core without cells that buffers what comes, with room for all that it is to be fed from the snapshot, and its feed.
pub(crate) fn empty_fed(
    alloc: Global,
    name: CoreId,
    range: Range,
    snapshot: Arc<Rows>,
) -> Result<(Replica, Feed), AllocError>
    ensures core { IfOk result (λ made. without_room made.0 ≡ empty_core name) }
    ensures feed { IfOk result (λ made. made.1 ≡ new_feed name range (arc_value snapshot)) }
    ensures roomy { IfOk result (λ made. IsRoomyFor made.1 made.0) }
{
    let feed = Feed::new(alloc, name, range, snapshot)?;
    let mut core = Replica::new(alloc, name, Mode::Buffering);
    core.reserve(feed.pending())?;
    Ok((core, feed))
}
