ghost use Rattle.std.specs.Prelude.{◌≡◌, ℕ, ◌+◌, ◌-◌, ◌*◌, ◌^◌, ◌<◌, ◌≤◌, ◌≤ℤ◌, All, filter, length, map, is_some, slice_get, IfOk, Some, List, option_copied, option_map};
ghost use Rattle.std.specs.Arc.{arc_value};
ghost use Rattle.std.specs.List.Sorted.{IsStrictlyIncreasing};
ghost use Rattle.sc_record.specs.Writes.{Write, AscendById};
ghost use Rattle.sc_rows.specs.Joining.{has_row};
ghost use Rattle.sc_snapshot.specs.Rows.{AreRows, AreChanged, is_within, lent};
ghost use Rattle.sc_snapshot.specs.Postings.{has_term, term_count, is_live_at};

use crate::edits::edits_of;
use crate::index::Index;
use crate::made::Made;
use crate::part::Part;
use crate::plain::Rows;
use crate::term_key::TermKey;
use sc_hash::Range;
use sc_keys::Steps;
use sc_record::{Cell, List};
use std::alloc::{AllocError, Global};
use std::marker::Model;
use std::sync::Arc;
use std::sync::ledger::Ledger;

/// The cells of a core as they were when the journal had `place` entries, with what a search needs in place of looking at each row.
/// Contracts see it as a `SnapshotState`. It shares each cell with the core, and its rows never change.
#[derive(Drop)]
pub struct Snapshot {
    rows: Rows,
    index: Arc<Index>,
}

impl Model for Snapshot {
    ghost use Rattle.std.specs.Arc.{arc_value};
    ghost use Rattle.sc_snapshot.specs.Rows.{SnapshotState};
    ghost use Rattle.sc_snapshot.specs.Postings.{IsIndexed};

    ghost Value = { SnapshotState };

    ghost view = { λ a. a.rows };

    ghost invariant = { λ a. IsIndexed a.rows.rows (arc_value a.index) };
}

impl Snapshot {
    /// The cells as the rows of a snapshot at this place of the journal. Each cell is shared, and each of its terms is filed. The
    /// only error is that memory was refused.
    pub fn of(alloc: Global, place: u64, cells: &List<Cell>) -> Result<Snapshot, AllocError>
        requires { AreRows (map arc_value cells.now) }
        ensures { IfOk result (λ snapshot. snapshot ≡ record { place = place; rows = map arc_value cells.now }) }
    {
        let mut rows = Vec::with_capacity(alloc, cells.len())?;
        for cell in cells.as_slice() {
            rows.push(Arc::try_clone(cell)?)?;
        }
        Snapshot::from_list(alloc, place, List::from_vec(rows))
    }

    /// The same of cells that are handed over.
    pub fn from_list(alloc: Global, place: u64, cells: List<Cell>) -> Result<Snapshot, AllocError>
        requires { AreRows (map arc_value cells) }
        ensures { IfOk result (λ snapshot. snapshot ≡ record { place = place; rows = map arc_value cells }) }
    {
        let index = Index::of(alloc, cells.as_slice())?;
        Ok(Snapshot {
            rows: Rows::from_list(alloc, place, cells)?,
            index,
        })
    }

    /// The same rows at another place: no row is copied. The only error is that memory was refused.
    pub fn at(&self, place: u64) -> Result<Snapshot, AllocError>
        ensures { IfOk result (λ snapshot. snapshot ≡ record self.now { place = place }) }
    {
        Ok(Snapshot {
            rows: self.rows.at(place)?,
            index: Arc::try_clone(&self.index)?,
        })
    }

    /// Has the same rows at another place from here on. It takes no memory.
    pub fn move_to(&mut self, place: u64)
        ensures { self.new ≡ record self.old { place = place } }
    {
        self.rows.move_to(place);
    }

    /// The snapshot at this place after these changes, which ascend by the ids' bytes: each is put in the place of the row of its id, or else
    /// in order. The cells are lent, and each is shared once, by the new rows. What it takes grows with the changes, with a step for the
    /// number and the mark of each row and for the place of each key, and with the postings: where few documents are replaced and no row gets
    /// another number, those of each term that lost no row are copied; else each posting is looked up. Of the old rows only those are read
    /// among which a change's place is sought. The only error is that memory was refused.
    pub fn next(&self, alloc: Global, place: u64, changes: &[&Cell]) -> Result<Snapshot, AllocError>
        requires ascend { AscendById (map lent changes.now) }
        requires bounded { (rows : List Write) → AscendById rows → AreChanged self.now.rows (map lent changes.now) rows → length rows ≤ 2 ^ 24 }
        ensures place { IfOk result (λ snapshot. snapshot.place ≡ place) }
        ensures rows { IfOk result (λ snapshot. AreRows snapshot.rows) }
        ensures changed { IfOk result (λ snapshot. AreChanged self.now.rows (map lent changes.now) snapshot.rows) }
    {
        let old = self.rows.pieces();
        let edits = edits_of(alloc, old, changes)?;
        let Made {
            rows,
            change,
            survey,
        } = Made::of(alloc, old, &self.index.survey, edits.as_slice())?;
        let index = self.index.next(alloc, &rows, change, survey)?;
        Ok(Snapshot {
            rows: Rows::from_pieces(alloc, place, rows)?,
            index,
        })
    }

    /// The rows whose hashes are in the range, at the same place, with an index that is carried over: no term is filed. What it takes
    /// grows with the rows, of which each is looked at, and with the postings of the index at the speed of copying. The only error is
    /// that memory was refused.
    pub fn within(&self, alloc: Global, range: &Range) -> Result<Snapshot, AllocError>
        ensures { IfOk result (λ snapshot. snapshot ≡ record self.now { rows = filter (is_within range.now) self.now.rows }) }
    {
        let Part { cells, change } = Part::of(alloc, self.rows.pieces(), range)?;
        let index = self.index.carried(alloc, change, cells.as_slice())?;
        Ok(Snapshot {
            rows: Rows::from_cells(alloc, self.rows.place(), cells)?,
            index,
        })
    }

    /// Its rows, for a feed: no row is copied. The only error is that memory was refused.
    pub fn share_rows(&self) -> Result<Rows, AllocError>
        ensures { IfOk result (λ rows. rows ≡ self.now) }
    {
        self.rows.at(self.rows.place())
    }

    /// How many entries the journal had.
    pub fn place(&self) -> u64
        ensures { result ≡ self.now.place }
    {
        self.rows.place()
    }

    /// How many rows there are.
    pub fn rows(&self) -> u32
        ensures count { result ≡ length self.now.rows }
        ensures rows { AreRows self.now.rows }
    {
        self.rows.rows()
    }

    /// The row with this number, counted from 0; None from the number of rows on. It takes one step.
    pub fn row<L: Ledger>(&self, at: u32, steps: &mut Steps<L>) -> Option<&Cell>
        ensures row { option_map arc_value (option_copied result) ≡ slice_get self.now.rows at }
        ensures counted { steps.new ≡ steps.old + 1 }
    {
        self.rows.row(at, steps)
    }

    /// The numbers of the live rows that have the term. A step is one comparison of terms, or of ids where the term is of the field of ids.
    pub fn postings<L: Ledger>(&self, key: &TermKey, steps: &mut Steps<L>) -> &[u32]
        ensures members { (number : ℕ) → has_row result.now number ≡ has_term key.now.term (slice_get self.now.rows number) }
        ensures ascending { IsStrictlyIncreasing result.now }
        ensures counted { steps.old ≤ steps.new }
        ensures bound { 2 ^ (steps.new - steps.old) ≤ 2 * term_count self.now.rows + 1 }
    {
        self.index.postings(self.rows.pieces(), key, steps)
    }

    /// The numbers of the live rows, ascending. It takes no step.
    pub fn live(&self) -> &[u32]
        ensures members { (number : ℕ) → has_row result.now number ≡ is_live_at (slice_get self.now.rows number) }
        ensures ascending { IsStrictlyIncreasing result.now }
    {
        self.index.survey.live_rows.as_slice()
    }

    /// Whether the row is live, and no deletion. It takes no step.
    pub fn is_live(&self, at: u32) -> bool
        requires { at < length self.now.rows }
        ensures { option_map (λ (row : Write). is_some row.doc) (slice_get self.now.rows at) ≡ Some result }
    {
        self.index.survey.live_bits.is_live(at)
    }

    /// A hash that is none of the rows' above: the least, where there are rows.
    pub fn least_hash(&self) -> i32
        ensures { All (λ (row : Write). result ≤ℤ row.hash) self.now.rows }
    {
        self.index.survey.least_hash
    }

    /// A hash that is none of the rows' below: the greatest, where there are rows.
    pub fn greatest_hash(&self) -> i32
        ensures { All (λ (row : Write). row.hash ≤ℤ result) self.now.rows }
    {
        self.index.survey.greatest_hash
    }
}
