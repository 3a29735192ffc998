//! The writes of a journal, and of each id in a range the last.

ghost use Rattle.std.specs.Prelude.{◌≡◌, map, filter, IfOk};
ghost use Rattle.std.specs.Arc.{arc_value};
ghost use Rattle.sc_record.specs.Writes.{AscendById};
ghost use Rattle.sc_snapshot.specs.Rows.{is_within, lent};
ghost use Rattle.sc_journal.specs.Journal.{writes};
ghost use Rattle.sc_bucket.specs.Taking.{AreLastOf};

use sc_bucket::changes_in;
use sc_hash::Range;
use sc_record::{Cell, Entry};
use std::alloc::{AllocError, Global};
use std::sync::Arc;

/// A share of each write of a journal, the oldest first. An error means out of memory.
pub(crate) fn cells_among(alloc: Global, entries: &[Entry]) -> Result<Vec<Cell>, AllocError>
    ensures { IfOk result (λ cells. map arc_value cells.items ≡ writes entries.now) }
{
    let mut cells = Vec::new(alloc);
    for entry in entries {
        if let Entry::Write(cell) = entry {
            cells.push(Arc::try_clone(cell)?)?;
        }
    }
    Ok(cells)
}

/// A share of the last of these writes of each id whose hash is in the range, ascending by the ids' bytes. An error means out of memory.
pub(crate) fn last_cells(
    alloc: Global,
    writes: &[Cell],
    range: &Range,
) -> Result<Vec<Cell>, AllocError>
    ensures ascend { IfOk result (λ cells. AscendById (map arc_value cells.items)) }
    ensures last { IfOk result (λ cells. AreLastOf (filter (is_within range.now) (map arc_value writes.now)) (map arc_value cells.items)) }
{
    let changes = changes_in(alloc, writes, range)?;
    let cells = shares_of(alloc, changes.as_slice())?;
    Ok(cells)
}

// A share of each of these cells. An error means out of memory.
fn shares_of(alloc: Global, cells: &[&Cell]) -> Result<Vec<Cell>, AllocError>
    ensures { IfOk result (λ shares. map arc_value shares.items ≡ map lent cells.now) }
{
    let mut shares = Vec::with_capacity(alloc, cells.len())?;
    for cell in cells {
        shares.push(Arc::try_clone(*cell)?)?;
    }
    Ok(shares)
}
