//! What a journal says was done for good.

ghost use Rattle.std.specs.Prelude.{◌≡◌, ◌++◌, IfOk, OnOk};
ghost use Rattle.sc_opening.specs.Changes.{done_by, changes};
ghost use Rattle.sc_opening.specs.Running.{plan_if};

use crate::change::Change;
use crate::running::{Running, running_after};
use sc_record::{Entry, List};
use std::alloc::{AllocError, Global};

// Puts what the entry says was done at the end, where this split is open before it.
fn push_done(
    alloc: Global,
    found: &mut List<Change>,
    running: Option<Running<'_>>,
    entry: &Entry,
) -> Result<(), AllocError>
    ensures { OnOk result (found.new ≡ found.old ++ done_by entry.now (plan_if running.entry)) }
{
    match entry {
        Entry::Switched { .. } => match running {
            Some(running) => found.push(Change::Switched {
                plan: running.plan(alloc)?,
            }),
            None => Ok(()),
        },
        Entry::Dropped { slice } => found.push(Change::Dropped { slice: *slice }),
        Entry::Write(_) => Ok(()),
        Entry::Settled { .. } => Ok(()),
        Entry::Committed => Ok(()),
        Entry::Begun { .. } => Ok(()),
        Entry::Failed { .. } => Ok(()),
        Entry::Down { .. } => Ok(()),
        Entry::Up { .. } => Ok(()),
        Entry::Led { .. } => Ok(()),
    }
}

/// The splits that the journal says were switched, each as it began, and the slices that it says were dropped, in order. The time is that
/// of one walk of the journal. The only error is that memory was refused.
pub fn changes_of(alloc: Global, journal: &[Entry]) -> Result<List<Change>, AllocError>
    ensures { IfOk result (λ found. found ≡ changes journal.now) }
{
    let mut found = List::new(alloc);
    let mut running = None;
    for entry in journal {
        push_done(alloc, &mut found, running, entry)?;
        running = running_after(running, entry);
    }
    Ok(found)
}
