ghost use Rattle.std.specs.Prelude.{◌≡◌, ◌<◌, ◌+◌, ◌↔◌, Err, List, [], length, map, IsTrue, IsFalse, All, Contains, IfOk, OnOk, OnErr};
ghost use Rattle.sc_cluster.specs.declared.slice.State.TheVariants as states;
ghost use Rattle.sc_snapshot.specs.Rows.{lent};
ghost use Rattle.sc_replica.specs.Core.{Core};
ghost use Rattle.sc_replicas.specs.Cores.{IsNewCore};
ghost use Rattle.sc_bucket.specs.Room.{BucketHasRoom, BucketIsFull};
ghost use Rattle.sc_bucket.specs.Sound.{AreActive, IsSound};
ghost use Rattle.sc_replicas.specs.declared.standing.Standing.{Standing};
ghost use Rattle.sc_bucket.specs.Searchers.{AreLed, AreTaken, IsTaken, HasParentSearcher, ArePrepared};
ghost use Rattle.sc_bucket.specs.Taking.{AreChangesOf, AreCommittedOf, IsLastOf, IsOfLeader};
ghost use Rattle.sc_bucket.specs.Events.{IsSameButRoom, Commits};
ghost use Rattle.sc_replicas.specs.Searchers.{AreMoved};
ghost use Rattle.sc_bucket.specs.Moving.{IsUnchanged};

use crate::bucket::Bucket;
use crate::changes::changes_in;
use crate::phase::Phase;
use crate::spares::hand_on;
use sc_cluster::{ClusterMap, Slice, State};
use sc_record::{Cell, Entry, List};
use sc_replicas::{Standing, are_within, have_own_rows, move_all, searcher_for};
use sc_snapshot::Snapshot;
use std::alloc::{AllocError, Global};
use std::mem;
use std::sync::Arc;
use thiserror::Error;

/// Why a bucket was not committed. It is as it was.
#[derive(Clone, Copy, Debug, PartialEq, Eq, Error)]
pub enum CommitFault {
    /// The journal has no room for the entry that says so.
    #[error("the update log is full")]
    LogFull,
    #[error("out of memory")]
    Memory,
}

impl From<AllocError> for CommitFault {
    ghost use Rattle.std.specs.Prelude.{◌≡◌};
    ghost use Rattle.sc_bucket.specs.declared.commit.CommitFault.TheVariants as faults;

    ghost from_gives = { λ _ fault. fault ≡ faults.Memory };

    fn from(_: AllocError) -> CommitFault {
        CommitFault::Memory
    }
}

impl Bucket {
    /// Commits: from here on a search finds all that was written so far, and nothing that is written later (Solr Reference
    /// Guide, "Commits and Transaction Logs"). Each active slice gets a searcher of its leader's cells. Its memory is taken
    /// first; after an error the bucket is as it was.
    pub fn commit(&mut self, alloc: Global) -> Result<(), CommitFault>
        requires sound { IsSound self.old }
        ensures sound { IsSound self.new }
        ensures committed { OnOk result (Commits self.old self.new) }
        ensures refused { OnErr result (IsSameButRoom self.old self.new) }
        ensures full { (result ≡ Err CommitFault.LogFull) ↔ BucketIsFull 1 self.old }
    {
        let place = self.entries();
        if self.limit < place + self.owed + 1 {
            return Err(CommitFault::LogFull);
        }
        self.journal.reserve(self.owed as usize + 1)?;
        self.commit_in_room(alloc)?;
        Ok(())
    }

    // The same, once the journal has room in memory.
    fn commit_in_room(&mut self, alloc: Global) -> Result<(), AllocError>
        requires sound { IsSound self.old }
        requires memory { self.old.owed < self.old.journal.room }
        requires room { BucketHasRoom 1 self.old }
        ensures sound { IsSound self.new }
        ensures committed { OnOk result (Commits self.old self.new) }
        ensures refused { OnErr result (self.new ≡ self.old) }
    {
        if self.commit_unchanged(alloc) {
            return Ok(());
        }
        let searchers = searchers_at(alloc, self)?;
        let spares = spares_at(alloc, self.phase, &self.map, &searchers)?;
        self.put_commit(searchers, spares);
        Ok(())
    }

    // Where nothing was written since the last commit, commits with the searchers that are there, unless one of them is shared. It takes
    // no memory.
    fn commit_unchanged(&mut self, alloc: Global) -> bool
        requires sound { IsSound self.old }
        requires memory { self.old.owed < self.old.journal.room }
        requires room { BucketHasRoom 1 self.old }
        ensures sound { IsSound self.new }
        ensures committed { IsTrue result → Commits self.old self.new }
        ensures kept { IsFalse result → self.new ≡ self.old }
    {
        if !self.is_unchanged() {
            return false;
        }
        let place = self.entries();
        let are_moved = self.move_searchers(alloc, place);
        if are_moved {
            self.journal.append(Entry::Committed);
        }
        are_moved
    }

    // Whether all that was written is committed, no split is open, and each searcher has rows of its own range alone, as right after a
    // switch it may not.
    fn is_unchanged(&self) -> bool
        ensures { IsTrue result → IsUnchanged self.now }
    {
        self.journal.uncommitted_writes().is_empty()
            && self.phase == Phase::Idle
            && have_own_rows(self.searchers.as_slice())
    }

    // Has the searchers show the same rows at another place, unless one of them is shared.
    fn move_searchers(&mut self, alloc: Global, place: u64) -> bool
        ensures rest { self.new ≡ record self.old { searchers = self.new.searchers } }
        ensures moved { IsTrue result → AreMoved place self.old.searchers self.new.searchers }
        ensures kept { IsFalse result → self.new.searchers ≡ self.old.searchers }
    {
        let mut searchers = mem::replace(&mut self.searchers, List::new(alloc)).into_vec();
        let are_moved = move_all(searchers.as_mut_slice(), place);
        self.searchers = List::from_vec(searchers);
        are_moved
    }

    // Puts the entry that commits into the journal, with these searchers and those that a switch leaves. It takes no memory.
    fn put_commit(&mut self, searchers: List<Standing>, spares: Option<List<Standing>>)
        requires sound { IsSound self.old }
        requires memory { self.old.owed < self.old.journal.room }
        requires room { BucketHasRoom 1 self.old }
        requires taken { AreTaken self.old.map self.old.replicas (length self.old.journal.entries) searchers }
        requires prepared { ArePrepared self.old.phase self.old.map searchers spares }
        ensures sound { IsSound self.new }
        ensures committed { Commits self.old self.new }
    {
        self.searchers = searchers;
        self.spares = spares;
        self.journal.append(Entry::Committed);
    }
}

/// A searcher for each active slice, of its leader's cells as they are. The bucket is only read. A slice's snapshot is made of its last
/// one and of what was written in its range since the last commit; where that is nothing it has the same rows, and none of them is
/// looked at. The list takes room for as many as there are. The only error is that memory was refused.
pub fn searchers_at(alloc: Global, bucket: &Bucket) -> Result<List<Standing>, AllocError>
    requires sound { IsSound bucket.now }
    ensures { IfOk result (AreTaken bucket.now.map bucket.now.replicas (length bucket.now.journal.entries)) }
{
    let mut searchers = Vec::with_capacity(alloc, bucket.searchers.len())?;
    for at in 0..bucket.map.len() {
        let slice = bucket.map.get(at).unwrap();
        if slice.state == State::Active {
            searchers.push_reserved(searcher_of(alloc, bucket, slice)?);
        }
    }
    Ok(List::from_vec(searchers))
}

// The searchers that a switch leaves, where these are the searchers; none where no split is open.
fn spares_at(
    alloc: Global,
    phase: Phase,
    slices: &ClusterMap,
    searchers: &List<Standing>,
) -> Result<Option<List<Standing>>, AllocError>
    requires { HasParentSearcher phase searchers.now }
    ensures { IfOk result (ArePrepared phase slices.now searchers.now) }
{
    match phase {
        Phase::Idle => Ok(None),
        Phase::Building { parent } | Phase::Recovering { parent } => {
            Ok(Some(hand_on(alloc, slices, parent, searchers)?))
        }
    }
}

// The searcher of an active slice, of its leader's cells as they are.
fn searcher_of(alloc: Global, bucket: &Bucket, slice: &Slice) -> Result<Standing, AllocError>
    requires sound { IsSound bucket.now }
    requires there { Contains bucket.now.map slice.now }
    requires active { slice.now.state ≡ states.Active }
    ensures of_slice { IfOk result (λ searcher. searcher.slice ≡ slice.now.id) }
    ensures taken { IfOk result (IsTaken bucket.now.map bucket.now.replicas (length bucket.now.journal.entries)) }
{
    let last = searcher_for(&bucket.searchers, slice.id);
    let snapshot = snapshot_of(alloc, bucket, slice, last)?;
    Ok(Standing {
        slice: slice.id,
        range: slice.range,
        snapshot: Arc::new(alloc, snapshot)?,
    })
}

// The snapshot of the cells of the slice's leader as they are: that of its last searcher with the changes. Right after a switch not all
// of its rows are in the slice's range; the others are left out before.
fn snapshot_of(
    alloc: Global,
    bucket: &Bucket,
    slice: &Slice,
    last: &Standing,
) -> Result<Snapshot, AllocError>
    requires sound { IsSound bucket.now }
    requires last { IsLastOf bucket.now slice.now last.now }
    ensures { IfOk result (IsOfLeader bucket.now slice.now) }
{
    if are_within(&last.snapshot, &slice.range) {
        changed_snapshot(alloc, bucket, slice, &last.snapshot)
    } else {
        let part = last.snapshot.within(alloc, &slice.range)?;
        changed_snapshot(alloc, bucket, slice, &part)
    }
}

// The snapshot of what was committed of the slice, with what was written in the slice's range since the last commit. Where nothing was
// written at all it makes no list.
fn changed_snapshot(
    alloc: Global,
    bucket: &Bucket,
    slice: &Slice,
    last: &Snapshot,
) -> Result<Snapshot, AllocError>
    requires sound { IsSound bucket.now }
    requires last { AreCommittedOf bucket.now slice.now last.now.rows }
    ensures { IfOk result (IsOfLeader bucket.now slice.now) }
{
    let writes = bucket.journal.uncommitted_writes();
    if writes.is_empty() {
        same_snapshot(bucket, slice, last)
    } else {
        let changes = changes_in(alloc, writes, &slice.range)?;
        next_snapshot(alloc, bucket, slice, last, changes.as_slice())
    }
}

// The same, with these changes.
fn next_snapshot(
    alloc: Global,
    bucket: &Bucket,
    slice: &Slice,
    last: &Snapshot,
    changes: &[&Cell],
) -> Result<Snapshot, AllocError>
    requires sound { IsSound bucket.now }
    requires last { AreCommittedOf bucket.now slice.now last.now.rows }
    requires changes { AreChangesOf bucket.now.journal.entries slice.now (map lent changes.now) }
    ensures { IfOk result (IsOfLeader bucket.now slice.now) }
{
    if changes.is_empty() {
        same_snapshot(bucket, slice, last)
    } else {
        last.next(alloc, bucket.entries(), changes)
    }
}

// The same rows, where nothing in the slice's range changed.
fn same_snapshot(bucket: &Bucket, slice: &Slice, last: &Snapshot) -> Result<Snapshot, AllocError>
    requires sound { IsSound bucket.now }
    requires last { AreCommittedOf bucket.now slice.now last.now.rows }
    requires unchanged { AreChangesOf bucket.now.journal.entries slice.now [] }
    ensures { IfOk result (IsOfLeader bucket.now slice.now) }
{
    let _ = last.rows(); // by it the proof knows that they are rows
    last.at(bucket.entries())
}

/// The searchers of cores without cells, one for each slice of a map, all of which are active.
pub(crate) fn first_searchers(
    alloc: Global,
    slices: &ClusterMap,
) -> Result<List<Standing>, AllocError>
    requires active { AreActive slices.now }
    ensures { (cores : List Core) → AreLed slices.now cores → All IsNewCore cores → IfOk result (AreTaken slices.now cores 0) }
{
    let mut searchers = Vec::new(alloc);
    for at in 0..slices.len() {
        let slice = slices.get(at).unwrap();
        searchers.push(Standing {
            slice: slice.id,
            range: slice.range,
            snapshot: Arc::new(alloc, Snapshot::from_list(alloc, 0, List::new(alloc))?)?,
        })?;
    }
    searchers.shrink_to_fit();
    Ok(List::from_vec(searchers))
}
