//! Whether an entry may come next, by what is kept of the entries before it.

ghost use Rattle.std.specs.Prelude.{◌≡◌, ◌<◌, ◌≤◌, ◌+◌, ◌^◌, ◌↔◌, pos, ◌<ℤ◌, ◌≤ℤ◌, Some, None, IsTrue, IfOk, IfSome, false, true};
ghost use Rattle.std.specs.BTreeMap.{get};
ghost use Rattle.std.specs.BTreeSet.{contains};
ghost use Rattle.std.specs.Cmp.Lexicographic.{slice_cmp};
ghost use Rattle.std.specs.Ordering.{nat_cmp};
ghost use Rattle.sc_record.specs.Names.{key_of_core};
ghost use Rattle.sc_record.specs.Versions.{last_timed_version};
ghost use Rattle.sc_cluster.specs.declared.slice.State.TheVariants as states;
ghost use Rattle.sc_cluster.specs.Changes.{IsInactive};
ghost use Rattle.sc_cluster.specs.Plans.{IsPlan};
ghost use Rattle.sc_journal.specs.Down.{IsFollower};
ghost use Rattle.sc_legal.specs.Kept.{is_among};

use crate::kept::Kept;
use sc_cluster::{Slice, SplitPlan, State};
use sc_record::{CloneIn, CoreId, List, SliceId, SubSlice, Write};
use std::alloc::{AllocError, Global};

/// The greatest version that a timestamp gives: 2^62 - 2^20.
const LAST_TIMED_VERSION: i64 = 0x3FFF_FFFF_FFF0_0000;

impl Kept {
    /// The write's version is above that of the last write of its id, and no greater than the last timestamp and the number of writes, with
    /// this, allow.
    pub(crate) fn may_write(&self, write: &Write) -> bool
        requires { self.now.writes + 1 < 2 ^ 64 }
        ensures exactly { IsTrue result
            ↔ (IfSome (get (slice_cmp nat_cmp) self.now.newest write.now.id) (λ last. last <ℤ write.now.version)
            × (write.now.version ≤ℤ pos (last_timed_version + (self.now.writes + 1)))) }
        ensures positive { pos 0 <ℤ write.now.version }
    {
        let version = write.version();
        self.is_newer(write) && self.is_bounded(version)
    }

    // The write's version is above that of the last write of its id.
    fn is_newer(&self, write: &Write) -> bool
        ensures { IsTrue result
            ↔ IfSome (get (slice_cmp nat_cmp) self.now.newest write.now.id) (λ last. last <ℤ write.now.version) }
    {
        match self.newest.get(write.id()) {
            Some(last) => *last < write.version(),
            None => true,
        }
    }

    // The version is no greater than the last timestamp and the number of writes, with one more, allow.
    fn is_bounded(&self, version: i64) -> bool
        requires { self.now.writes + 1 < 2 ^ 64 }
        ensures { IsTrue result ↔ (version ≤ℤ pos (last_timed_version + (self.now.writes + 1))) }
    {
        version <= LAST_TIMED_VERSION || (version - LAST_TIMED_VERSION) as u64 <= self.writes + 1
    }

    /// A write that no entry settles is at the place.
    pub(crate) fn is_unsettled(&self, place: u64) -> bool
        ensures { result ≡ contains nat_cmp self.now.unsettled place }
    {
        self.unsettled.contains(&place)
    }

    /// The slice is the one whose split is open.
    pub(crate) fn is_split(&self, slice: SliceId) -> bool
        ensures { IsTrue result ↔ (self.now.split ≡ Some slice) }
    {
        self.split == Some(slice)
    }

    /// No split is open.
    pub(crate) fn is_idle(&self) -> bool
        ensures { IsTrue result ↔ (self.now.split ≡ None) }
    {
        self.split.is_none()
    }

    /// No split is open, and the map allows one of the parent into the subs.
    pub(crate) fn may_be_split(
        &self,
        alloc: Global,
        parent: SliceId,
        subs: &List<SubSlice>,
    ) -> Result<bool, AllocError>
        ensures { IfOk result (λ yes. IsTrue yes ↔ ((self.now.split ≡ None) × IsPlan self.now.map parent subs.now)) }
    {
        let subs = subs.clone_in(alloc)?;
        let plan = SplitPlan { parent, subs };
        Ok(self.is_idle() && self.map.allows(&plan))
    }

    /// No split is open, and the slice is inactive.
    pub(crate) fn may_be_dropped(&self, slice: SliceId) -> bool
        ensures { IsTrue result ↔ ((self.now.split ≡ None) × IsInactive self.now.map slice) }
    {
        self.is_idle() && self.is_inactive(slice)
    }

    // The slice is there, and is inactive.
    fn is_inactive(&self, slice: SliceId) -> bool
        ensures { IsTrue result ↔ IsInactive self.now.map slice }
    {
        match self.map.by_id(slice) {
            Some(slice) => slice.state == State::Inactive,
            None => false,
        }
    }

    /// The core is a follower of an active slice, and is not down.
    pub(crate) fn may_go_down(&self, core: CoreId) -> bool
        ensures { IsTrue result ↔ (IsFollower self.now.map core × (is_among (key_of_core core) self.now.down ≡ false)) }
    {
        self.is_follower(core) && !self.down.contains(core)
    }

    /// No split is open, and the core is a follower of an active slice that is down.
    pub(crate) fn may_come_up(&self, core: CoreId) -> bool
        ensures { IsTrue result ↔ ((self.now.split ≡ None) × IsFollower self.now.map core
            × (is_among (key_of_core core) self.now.down ≡ true)) }
    {
        self.is_idle() && self.is_follower(core) && self.down.contains(core)
    }

    /// No split is open, and the core is a follower of an active slice that is not down.
    pub(crate) fn may_lead(&self, core: CoreId) -> bool
        ensures { IsTrue result ↔ ((self.now.split ≡ None) × IsFollower self.now.map core
            × (is_among (key_of_core core) self.now.down ≡ false)) }
    {
        self.is_idle() && self.may_go_down(core)
    }

    // The core is a follower of an active slice.
    fn is_follower(&self, core: CoreId) -> bool
        ensures { IsTrue result ↔ IsFollower self.now.map core }
    {
        match self.map.by_id(core.slice) {
            Some(slice) => follows(slice, core.replica),
            None => false,
        }
    }
}

// The slice is active, and has this replica beside its leader.
fn follows(slice: &Slice, replica: u8) -> bool
    ensures { IsTrue result ↔ ((slice.now.state ≡ states.Active) × (1 < replica) × (replica ≤ slice.now.replicas)) }
{
    slice.state == State::Active && replica > 1 && replica <= slice.replicas
}
