ghost use Rattle.std.specs.Prelude.{◌≡◌, ◌+◌, ◌^◌, ◌<◌, ◌≤◌, map, length, take, IfOk, MatchResult};
ghost use Rattle.std.specs.Arc.{arc_value};
ghost use Rattle.sc_record.specs.Writes.{AscendById};
ghost use Rattle.sc_snapshot.specs.Rows.{lent};
ghost use Rattle.sc_snapshot.specs.Edits.{put_in, next_of, AreBelow, IsPlace, AreEdits};

use crate::pieces::Pieces;
use sc_record::{Cell, Id};
use std::alloc::{AllocError, Global};
use std::cmp::Ordering;

/// What one change does to the rows: its cell goes in before the row with this number, or in its place. It borrows the cell.
#[derive(Drop)]
pub(crate) struct Edit<'a> {
    pub(crate) at: usize,
    /// Whether the cell takes the place of the row, which has its id.
    pub(crate) replaces: bool,
    pub(crate) cell: &'a Cell,
}

impl<'a> Edit<'a> {
    /// The edit that puts this change in the place of its id. No row before this number is looked at.
    fn of(rows: &Pieces, from: usize, change: &'a Cell) -> Edit<'a>
        requires rows { AscendById rows.now }
        requires from { from ≤ length rows.now }
        requires before { AreBelow (arc_value change.now).id (take from rows.now) }
        ensures change { put_in result ≡ arc_value change.now }
        ensures from { from ≤ result.at }
        ensures bounded { next_of result ≤ length rows.now }
        ensures place { IsPlace rows.now result.at (next_of result) (put_in result).id }
    {
        match search(rows, from, change.id()) {
            Ok(at) => Edit {
                at,
                replaces: true,
                cell: change,
            },
            Err(at) => Edit {
                at,
                replaces: false,
                cell: change,
            },
        }
    }

    /// The number of the first old row after it.
    pub(crate) fn next(&self) -> usize
        requires { self.now.at < 2 ^ 24 + 1 }
        ensures { result ≡ next_of self.now }
    {
        if self.replaces { self.at + 1 } else { self.at }
    }
}

/// The edits that put these changes in the places of their ids, each found by one search. The only error is that memory was refused.
pub(crate) fn edits_of<'a>(
    alloc: Global,
    rows: &Pieces,
    changes: &[&'a Cell],
) -> Result<Vec<Edit<'a>>, AllocError>
    requires rows { AscendById rows.now }
    requires bounded { length rows.now ≤ 2 ^ 24 }
    requires changes { AscendById (map lent changes.now) }
    ensures { IfOk result (λ edits. AreEdits rows.now (map lent changes.now) edits.items) }
{
    let mut edits = Vec::with_capacity(alloc, changes.len())?;
    let mut from = 0;
    for change in changes {
        let edit = Edit::of(rows, from, *change);
        from = edit.next();
        edits.push(edit)?;
    }
    Ok(edits)
}

// The number of the id's row, or else that of the first row that is above the id.
fn search(rows: &Pieces, from: usize, id: &Id) -> Result<usize, usize>
    requires rows { AscendById rows.now }
    requires from { from ≤ length rows.now }
    requires before { AreBelow id.now (take from rows.now) }
    ensures from { MatchResult result (λ at. from ≤ at) (λ at. from ≤ at) }
    ensures bounded { MatchResult result (λ at. at < length rows.now) (λ at. at ≤ length rows.now) }
    ensures place { MatchResult result (λ at. IsPlace rows.now at (at + 1) id.now) (λ at. IsPlace rows.now at at id.now) }
{
    let mut low = from;
    let mut high = rows.len();
    'halving: while low < high {
        let middle = low + (high - low) / 2;
        match rows.cell(middle).id().cmp(id) {
            Ordering::Less => low = middle + 1,
            Ordering::Equal => return Ok(middle),
            Ordering::Greater => high = middle,
        }
    }
    Err(low)
}
