ghost use Rattle.std.specs.Prelude.{◌≡◌, ℕ, List, map, filter, IfOk};
ghost use Rattle.std.specs.Arc.{arc_value};
ghost use Rattle.sc_record.specs.Writes.{is_of, AscendById};
ghost use Rattle.sc_snapshot.specs.Rows.{is_within, lent};
ghost use Rattle.sc_bucket.specs.Taking.{AreLastOf, IsSortedById};

use crate::feed::is_within;
use sc_hash::Range;
use sc_record::Cell;
use std::alloc::{AllocError, Global};

/// Of these writes those whose hash is in the range, of each id the last, ascending by the ids' bytes. None is shared. The only error is
/// that memory was refused.
pub fn changes_in<'a>(
    alloc: Global,
    writes: &'a [Cell],
    range: &Range,
) -> Result<Vec<&'a Cell>, AllocError>
    ensures ascend { IfOk result (λ changes. AscendById (map lent changes.items)) }
    ensures last { IfOk result (λ changes. AreLastOf (filter (is_within range.now) (map arc_value writes.now)) (map lent changes.items)) }
{
    let found = within(alloc, writes, range)?;
    let sorted = in_order(found)?;
    let changes = last_of_each(alloc, sorted.as_slice())?;
    Ok(changes)
}

// Of these writes those whose hash is in the range, as they came.
fn within<'a>(alloc: Global, writes: &'a [Cell], range: &Range) -> Result<Vec<&'a Cell>, AllocError>
    ensures { IfOk result (λ found. map lent found.items ≡ filter (is_within range.now) (map arc_value writes.now)) }
{
    let mut found = Vec::with_capacity(alloc, writes.len())?;
    for cell in writes {
        if is_within(range, cell) {
            found.push(cell)?;
        }
    }
    Ok(found)
}

// These cells in the order of their ids, and those of one id in the order in which they came. Few ids are compared where they come in
// order already.
fn in_order<'a>(mut cells: Vec<&'a Cell>) -> Result<Vec<&'a Cell>, AllocError>
    ensures sorted { IfOk result (λ sorted. IsSortedById (map lent sorted.items)) }
    ensures stable { IfOk result (λ sorted. (id : List ℕ) → filter (is_of id) (map lent sorted.items) ≡ filter (is_of id) (map lent cells.entry.items)) }
{
    cells.sort_by(|left, right| left.id().cmp(right.id()))?;
    Ok(cells)
}

// The last cell of each id, where the cells come in the order of their ids.
fn last_of_each<'a>(alloc: Global, cells: &[&'a Cell]) -> Result<Vec<&'a Cell>, AllocError>
    requires { IsSortedById (map lent cells.now) }
    ensures ascend { IfOk result (λ changes. AscendById (map lent changes.items)) }
    ensures last { IfOk result (λ changes. AreLastOf (map lent cells.now) (map lent changes.items)) }
{
    let mut changes = Vec::with_capacity(alloc, cells.len())?;
    let Some((first, rest)) = cells.split_first() else {
        return Ok(changes);
    };
    let mut latest = *first;
    for cell in rest {
        if cell.id() != latest.id() {
            changes.push(latest)?;
        }
        latest = *cell;
    }
    changes.push(latest)?;
    Ok(changes)
}
