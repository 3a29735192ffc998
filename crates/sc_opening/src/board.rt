//! What the board has of what was done.

ghost use Rattle.std.specs.Prelude.{◌≡◌, ◌++◌, IfOk, OnOk};
ghost use Rattle.sc_seen.specs.Rounds.{board_entries};
ghost use Rattle.sc_opening.specs.Changes.{round_of};
ghost use Rattle.sc_opening.specs.Collections.{board_of};

use crate::change::Change;
use sc_record::{CloneIn, List};
use sc_seen::BoardEntry;
use std::alloc::{AllocError, Global};

// Puts the entries at the end by which the board notes this.
fn push_noted(
    alloc: Global,
    entries: &mut List<BoardEntry>,
    change: &Change,
) -> Result<(), AllocError>
    ensures { OnOk result (entries.new ≡ entries.old ++ board_entries (round_of change.now)) }
{
    match change {
        Change::Switched { plan } => {
            entries.push(BoardEntry::Begun {
                plan: plan.clone_in(alloc)?,
            })?;
            entries.push(BoardEntry::Recovering {
                parent: plan.parent,
            })?;
            entries.push(BoardEntry::Done {
                parent: plan.parent,
            })
        }
        Change::Dropped { slice } => entries.push(BoardEntry::Dropped { slice: *slice }),
    }
}

/// The journal of the board of a collection of which this was done: each split began, was recovered and done, and each slice was dropped.
/// The only error is that memory was refused.
pub fn board_journal(alloc: Global, done: &[Change]) -> Result<List<BoardEntry>, AllocError>
    ensures { IfOk result (λ entries. entries ≡ board_of done.now) }
{
    let mut entries = List::new(alloc);
    for change in done {
        push_noted(alloc, &mut entries, change)?;
    }
    Ok(entries)
}
