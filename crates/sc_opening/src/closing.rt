//! How a journal is closed.

ghost use Rattle.std.specs.Prelude.{◌≡◌, ◌++◌, ℕ, ◌<◌, ◌||◌, ◌==◌, false, length, map, get_or, IfOk, OnOk};
ghost use Rattle.sc_record.specs.declared.entry.Entry.TheVariants as entry;
ghost use Rattle.sc_journal.specs.Journal.{is_settled, unsettled};
ghost use Rattle.sc_seen.specs.Rounds.{bucket_entries};
ghost use Rattle.sc_opening.specs.Changes.{round_of};
ghost use Rattle.sc_opening.specs.Closed.{entries_of, catching_up, missing, closing, closed};
ghost use Rattle.sc_opening.specs.Running.{plan_if};

use crate::change::Change;
use crate::changes::changes_of;
use crate::running::{Running, running_in};
use sc_record::{CloneIn, Entry, List};
use std::alloc::{AllocError, Global};

// Puts the entries at the end that say that this was done.
fn push_change(alloc: Global, entries: &mut List<Entry>, change: &Change) -> Result<(), AllocError>
    ensures { OnOk result (entries.new ≡ entries.old ++ bucket_entries (round_of change.now)) }
{
    match change {
        Change::Switched { plan } => {
            entries.push(Entry::Begun {
                parent: plan.parent,
                subs: plan.subs.clone_in(alloc)?,
            })?;
            entries.push(Entry::Switched {
                parent: plan.parent,
            })
        }
        Change::Dropped { slice } => entries.push(Entry::Dropped { slice: *slice }),
    }
}

fn push_changes(alloc: Global, entries: &mut List<Entry>, done: &[Change]) -> Result<(), AllocError>
    ensures { OnOk result (entries.new ≡ entries.old ++ entries_of done.now) }
{
    for change in done {
        push_change(alloc, entries, change)?;
    }
    Ok(())
}

// Puts the end of the split that is open at the end, and what else was done: it was switched where it is the first of that.
fn push_missing(
    alloc: Global,
    entries: &mut List<Entry>,
    running: Option<Running<'_>>,
    done: &[Change],
) -> Result<(), AllocError>
    ensures { OnOk result (entries.new ≡ entries.old ++ catching_up (plan_if running.entry) done.now) }
{
    let Some(running) = running else {
        return push_changes(alloc, entries, done);
    };
    if let Some((Change::Switched { plan }, rest)) = done.split_first() {
        if running.is_of(plan) {
            entries.push(Entry::Switched {
                parent: running.parent,
            })?;
            return push_changes(alloc, entries, rest);
        }
    }
    entries.push(Entry::Failed {
        parent: running.parent,
    })?;
    push_changes(alloc, entries, done)
}

// What was done that the journal says nothing of.
fn missing<'a>(
    alloc: Global,
    journal: &[Entry],
    done: &'a [Change],
) -> Result<&'a [Change], AllocError>
    ensures { IfOk result (λ rest. rest.now ≡ missing journal.now done.now) }
{
    let count = changes_of(alloc, journal)?.len();
    if count < done.len() {
        Ok(&done[count..])
    } else {
        Ok(&done[done.len()..])
    }
}

// Marks the place, where it is one of these.
fn mark(marks: &mut [bool], place: u64)
    ensures length { length marks.new ≡ length marks.old }
    ensures marks { (k : ℕ) → k < length marks.old → get_or marks.new k false ≡ (get_or marks.old k false || (place == k)) }
{
    if place < marks.len() as u64 {
        marks[place as usize] = true;
    }
}

// Of each place of the journal whether an entry settles it.
fn settled_places(alloc: Global, journal: &[Entry]) -> Result<Vec<bool>, AllocError>
    ensures length { IfOk result (λ marks. length marks.items ≡ length journal.now) }
    ensures marks { IfOk result (λ marks. (k : ℕ) → k < length journal.now → get_or marks.items k false ≡ is_settled journal.now k) }
{
    let mut marks = vec![in alloc; false; journal.len()]?;
    for entry in journal {
        if let Entry::Settled { place } = entry {
            mark(&mut marks, *place);
        }
    }
    Ok(marks)
}

// Puts an entry at the end that settles each write of the journal that no entry of it settles, ascending.
fn push_settled(
    alloc: Global,
    entries: &mut List<Entry>,
    journal: &[Entry],
) -> Result<(), AllocError>
    ensures { OnOk result (entries.new ≡ entries.old ++ map entry.Settled (unsettled journal.now)) }
{
    let settled = settled_places(alloc, journal)?;
    for (i, entry) in journal.iter().enumerate() {
        if let Entry::Write(_) = entry {
            if !settled[i] {
                entries.push(Entry::Settled { place: i as u64 })?;
            }
        }
    }
    Ok(())
}

// Puts the entries at the end that close the journal.
fn push_closing(
    alloc: Global,
    entries: &mut List<Entry>,
    journal: &[Entry],
    done: &[Change],
) -> Result<(), AllocError>
    ensures { OnOk result (entries.new ≡ entries.old ++ closing journal.now done.now) }
{
    let rest = missing(alloc, journal, done)?;
    push_missing(alloc, entries, running_in(journal), rest)?;
    push_settled(alloc, entries, journal)
}

/// The journal, closed by this, which was done of the collection: its open split is switched where it is the first of that which the
/// journal lacks, and failed otherwise; then what else it lacks was done, and each write is settled. The time is that of a few walks of the
/// journal, and the memory beside the entries a byte for each. The only error is that memory was refused; the journal is gone then.
pub fn close(
    alloc: Global,
    journal: List<Entry>,
    done: &[Change],
) -> Result<List<Entry>, AllocError>
    ensures { IfOk result (λ whole. whole ≡ closed journal done.now) }
{
    let mut more = List::new(alloc);
    push_closing(alloc, &mut more, journal.as_slice(), done)?;
    let mut whole = journal.into_vec();
    whole.append(&mut more.into_vec())?;
    Ok(List::from_vec(whole))
}
