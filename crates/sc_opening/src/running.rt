//! The split that is open in a journal.

ghost use Rattle.std.specs.Prelude.{◌≡◌, IfOk};
ghost use Rattle.sc_opening.specs.Changes.{begun_after, open_begun};
ghost use Rattle.sc_opening.specs.Running.{plan_of, plan_if};
ghost use Rattle.sc_opening.specs.Same.{same_plan};

use crate::same::is_of_plan;
use sc_cluster::SplitPlan;
use sc_record::{CloneIn, Entry, List, SliceId, SubSlice};
use std::alloc::{AllocError, Global};

/// A split that began and has no end yet; its slices lie in the journal.
#[derive(Clone, Copy)]
pub(crate) struct Running<'a> {
    pub parent: SliceId,
    pub subs: &'a List<SubSlice>,
}

impl<'a> Running<'a> {
    /// A copy of it as a plan.
    pub(crate) fn plan(&self, alloc: Global) -> Result<SplitPlan, AllocError>
        ensures { IfOk result (λ plan. plan ≡ plan_of self.now) }
    {
        Ok(SplitPlan {
            parent: self.parent,
            subs: self.subs.clone_in(alloc)?,
        })
    }

    /// It is the split of the plan.
    pub(crate) fn is_of(&self, plan: &SplitPlan) -> bool
        ensures { result ≡ same_plan (plan_of self.now) plan.now }
    {
        is_of_plan(self.parent, self.subs.as_slice(), plan)
    }
}

/// The split that is open after the entry, where this is open before it.
pub(crate) fn running_after<'a>(
    running: Option<Running<'a>>,
    entry: &'a Entry,
) -> Option<Running<'a>>
    ensures { plan_if result ≡ begun_after (plan_if running.entry) entry.now }
{
    match entry {
        Entry::Begun { parent, subs } => Some(Running {
            parent: *parent,
            subs,
        }),
        Entry::Switched { .. } => None,
        Entry::Failed { .. } => None,
        Entry::Write(_) => running,
        Entry::Settled { .. } => running,
        Entry::Committed => running,
        Entry::Dropped { .. } => running,
        Entry::Down { .. } => running,
        Entry::Up { .. } => running,
        Entry::Led { .. } => running,
    }
}

/// The split that is open in the journal.
pub(crate) fn running_in(journal: &[Entry]) -> Option<Running<'_>>
    ensures { plan_if result ≡ open_begun journal.now }
{
    let mut running = None;
    for entry in journal {
        running = running_after(running, entry);
    }
    running
}
