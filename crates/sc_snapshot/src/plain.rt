ghost use Rattle.std.specs.Prelude.{◌≡◌, ◌+◌, length, map, slice_get, IfOk, option_copied, option_map};
ghost use Rattle.std.specs.Arc.{arc_value};
ghost use Rattle.sc_snapshot.specs.Rows.{AreRows};

use crate::cutting::pieces_of;
use crate::pieces::Pieces;
use sc_keys::Steps;
use sc_record::{Cell, List};
use std::alloc::{AllocError, Global};
use std::marker::Model;
use std::sync::Arc;
use std::sync::ledger::Ledger;

/// The cells of a core as they were when the journal had `place` entries, without an index: what a feed reads. Contracts see it as
/// a `SnapshotState`. It shares each cell with the core, and most with the rows before it by whole pieces. The rows never change.
#[derive(Debug, Drop)]
pub struct Rows {
    place: u64,
    pieces: Arc<Pieces>,
}

impl Model for Rows {
    ghost use Rattle.std.specs.Arc.{arc_value};
    ghost use Rattle.sc_snapshot.specs.Rows.{SnapshotState, AreRows};

    ghost Value = { SnapshotState };

    ghost view = { λ a. record { place = a.place; rows = arc_value a.pieces } };

    ghost invariant = { λ a. AreRows (arc_value a.pieces) };
}

impl Rows {
    /// The cells, which are handed over, as the rows at this place of the journal. The only error is that memory was refused.
    pub fn from_list(alloc: Global, place: u64, cells: List<Cell>) -> Result<Rows, AllocError>
        requires { AreRows (map arc_value cells) }
        ensures { IfOk result (λ rows. rows ≡ record { place = place; rows = map arc_value cells }) }
    {
        let mut pieces = Pieces::new(alloc);
        pieces.push(Arc::new(alloc, cells)?)?;
        Rows::from_pieces(alloc, place, pieces)
    }

    /// The same of cells that are cut into pieces.
    pub(crate) fn from_cells(
        alloc: Global,
        place: u64,
        cells: Vec<Cell>,
    ) -> Result<Rows, AllocError>
        requires { AreRows (map arc_value cells.items) }
        ensures { IfOk result (λ rows. rows ≡ record { place = place; rows = map arc_value cells.items }) }
    {
        let pieces = pieces_of(alloc, cells)?;
        Rows::from_pieces(alloc, place, pieces)
    }

    /// The same of pieces.
    pub(crate) fn from_pieces(alloc: Global, place: u64, pieces: Pieces) -> Result<Rows, AllocError>
        requires { AreRows pieces }
        ensures { IfOk result (λ rows. rows ≡ record { place = place; rows = pieces }) }
    {
        Ok(Rows {
            place,
            pieces: Arc::new(alloc, pieces)?,
        })
    }

    /// How many entries the journal had.
    pub fn place(&self) -> u64
        ensures { result ≡ self.now.place }
    {
        self.place
    }

    /// How many rows there are.
    pub fn rows(&self) -> u32
        ensures count { result ≡ length self.now.rows }
        ensures rows { AreRows self.now.rows }
    {
        self.pieces.len() as u32
    }

    /// The row at this index, counted from 0; None from the number of rows on. It takes one step.
    pub fn row<L: Ledger>(&self, at: u32, steps: &mut Steps<L>) -> Option<&Cell>
        ensures row { option_map arc_value (option_copied result) ≡ slice_get self.now.rows at }
        ensures rows { AreRows self.now.rows }
        ensures counted { steps.new ≡ steps.old + 1 }
    {
        steps.tick();
        self.pieces.row(at as usize)
    }

    /// The same rows at another place: no row is copied.
    pub(crate) fn at(&self, place: u64) -> Result<Rows, AllocError>
        ensures { IfOk result (λ rows. rows ≡ record self.now { place = place }) }
    {
        Ok(Rows {
            place,
            pieces: Arc::try_clone(&self.pieces)?,
        })
    }

    /// Has the same rows at another place from here on. It takes no memory.
    pub(crate) fn move_to(&mut self, place: u64)
        ensures { self.new ≡ record self.old { place = place } }
    {
        self.place = place;
    }

    pub(crate) fn pieces(&self) -> &Pieces
        ensures rows { result.now ≡ self.now.rows }
        ensures are_rows { AreRows self.now.rows }
    {
        &self.pieces
    }
}
