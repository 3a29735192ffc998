ghost use Rattle.std.specs.Prelude.{◌≡◌, ℕ, ◌+◌, ◌<◌, ◌≤◌, ◌^◌, [], ◌∷◌, ◌++◌, filter, length, map, slice_get, true, IfOk, OnOk, Some, List};
ghost use Rattle.std.specs.Arc.{arc_value};
ghost use Rattle.sc_record.specs.Writes.{Write};
ghost use Rattle.sc_snapshot.specs.Change.{IsChange};
ghost use Rattle.sc_snapshot.specs.Rows.{is_within};

use crate::change::Change;
use crate::pieces::Pieces;
use sc_hash::Range;
use sc_record::Cell;
use std::alloc::{AllocError, Global};
use std::sync::Arc;

/// The rows of a snapshot whose hashes are in a range.
#[derive(Drop)]
pub(crate) struct Part {
    /// A share of each of their cells.
    pub(crate) cells: Vec<Cell>,
    /// What becomes of all rows: these are kept, and no other row is new.
    pub(crate) change: Change,
}

impl Part {
    /// Those of the rows whose hashes are in the range. Each row is looked at, and none of its terms. The only error is that memory was
    /// refused.
    pub(crate) fn of(alloc: Global, rows: &Pieces, range: &Range) -> Result<Part, AllocError>
        requires { length rows.now ≤ 2 ^ 24 }
        ensures cells { IfOk result (λ part. map arc_value part.cells.items ≡ filter (is_within range.now) rows.now) }
        ensures change { IfOk result (λ part. IsChange rows.now (filter (is_within range.now) rows.now) (length rows.now)
            (length (filter (is_within range.now) rows.now)) part.change) }
    {
        let mut part = Part {
            cells: Vec::new(alloc),
            change: Change::begin(alloc, rows.len(), false)?,
        };
        for row in 0..rows.len() {
            part.look(rows.cell(row), range)?;
        }
        Ok(part)
    }

    // The next row is one of them where its hash is in the range.
    fn look(&mut self, row: &Cell, range: &Range) -> Result<(), AllocError>
        requires { length self.old.cells.items < 2 ^ 24 }
        ensures cells { OnOk result (map arc_value self.new.cells.items
            ≡ map arc_value self.old.cells.items ++ filter (is_within range.now) (arc_value row.now ∷ [])) }
        ensures change { OnOk result ((old new : List Write) (at : ℕ) → IsChange old new at (length self.old.cells.items) self.old.change
            → slice_get old at ≡ Some (arc_value row.now)
            → (is_within range.now (arc_value row.now) ≡ true → slice_get new (length self.old.cells.items) ≡ Some (arc_value row.now))
            → IsChange old new (at + 1) (length self.new.cells.items) self.new.change) }
    {
        if is_within(range, row) {
            self.keep(row)?;
        } else {
            self.change.leave()?;
        }
        Ok(())
    }

    // The next row is one of them.
    fn keep(&mut self, row: &Cell) -> Result<(), AllocError>
        requires { length self.old.cells.items < 2 ^ 24 }
        ensures cells { OnOk result (map arc_value self.new.cells.items ≡ map arc_value self.old.cells.items ++ arc_value row.now ∷ []) }
        ensures change { OnOk result ((old new : List Write) (at : ℕ) → IsChange old new at (length self.old.cells.items) self.old.change
            → slice_get old at ≡ Some (arc_value row.now) → slice_get new (length self.old.cells.items) ≡ Some (arc_value row.now)
            → IsChange old new (at + 1) (length self.new.cells.items) self.new.change) }
    {
        self.change.keep(self.cells.len() as u32)?;
        self.cells.push(Arc::try_clone(row)?)?;
        Ok(())
    }
}

// The row's hash is in the range.
fn is_within(range: &Range, row: &Cell) -> bool
    ensures { result ≡ is_within range.now (arc_value row.now) }
{
    range.contains(row.hash())
}
