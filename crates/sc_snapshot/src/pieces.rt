ghost use Rattle.std.specs.Prelude.{◌≡◌, ◌+◌, ◌-◌, ◌^◌, ◌<◌, ◌≤◌, ◌↔◌, IsTrue, [], ◌++◌, map, length, take, drop, slice_get, OnOk, Some, option_copied, option_map};
ghost use Rattle.std.specs.Arc.{arc_value};
ghost use Rattle.sc_snapshot.specs.Pieces.{rows_in, rows_of, start_of, HaveEnds, HasRow};

use sc_record::{Cell, List};
use std::alloc::{AllocError, Global};
use std::marker::Model;
use std::sync::Arc;

/// So many cells a piece has that a change made, and no more.
pub(crate) const MOST: usize = 32;

/// Cells that follow one another in the rows, and are shared as one.
#[derive(Debug, Drop)]
pub(crate) struct Piece {
    pub(crate) cells: Arc<List<Cell>>,
    /// How many rows there are up to the end of this piece.
    pub(crate) end: usize,
}

impl Piece {
    /// The number of its first row.
    pub(crate) fn start(&self) -> usize
        requires { length (rows_in self.now) ≤ self.now.end }
        ensures { result ≡ start_of self.now }
    {
        self.end - self.cells.len()
    }

    /// Whether it has the row with this number.
    fn has(&self, at: usize) -> bool
        requires { length (rows_in self.now) ≤ self.now.end }
        ensures { IsTrue result ↔ ((start_of self.now ≤ at) × (at < self.now.end)) }
    {
        self.start() <= at && at < self.end
    }

    /// Some of its cells, counted from its first.
    pub(crate) fn part(&self, from: usize, to: usize) -> &[Cell]
        requires from { from ≤ to }
        requires to { to ≤ length (rows_in self.now) }
        ensures { map arc_value result.now ≡ take (to - from) (drop from (rows_in self.now)) }
    {
        &self.cells.as_slice()[from..to]
    }
}

/// The cells of rows, in pieces. Contracts see it as the list of the rows.
#[derive(Debug, Drop)]
pub(crate) struct Pieces {
    pieces: Vec<Piece>,
}

impl Model for Pieces {
    ghost use Rattle.std.specs.Prelude.{List};
    ghost use Rattle.sc_record.specs.Writes.{Write};
    ghost use Rattle.sc_snapshot.specs.Pieces.{rows_of, HaveEnds};

    ghost Value = { List Write };

    ghost view = { λ a. rows_of a.pieces.items };

    ghost invariant = { λ a. HaveEnds a.pieces.items };
}

impl Pieces {
    /// No rows.
    pub(crate) fn new(alloc: Global) -> Pieces
        ensures { result ≡ [] }
    {
        Pieces {
            pieces: Vec::new(alloc),
        }
    }

    /// How many rows there are.
    pub(crate) fn len(&self) -> usize
        ensures { result ≡ length self.now }
    {
        match self.pieces.as_slice() {
            [.., last] => last.end,
            [] => 0,
        }
    }

    /// Puts these cells at the end, as one piece. The only error is that memory was refused.
    pub(crate) fn push(&mut self, cells: Arc<List<Cell>>) -> Result<(), AllocError>
        requires { length self.old + length (arc_value cells) ≤ 2 ^ 24 }
        ensures { OnOk result (self.new ≡ self.old ++ map arc_value (arc_value cells)) }
    {
        let end = self.len() + cells.len();
        self.pieces.push(Piece { cells, end })?;
        Ok(())
    }

    /// The piece that has the row with this number. It takes one search.
    pub(crate) fn piece(&self, at: usize) -> &Piece
        requires { at < length self.now }
        ensures { HasRow self.now at result.now }
    {
        let place = place_of(self.pieces.as_slice(), at);
        &self.pieces[place]
    }

    /// The cell of the row with this number.
    pub(crate) fn cell(&self, at: usize) -> &Cell
        requires { at < length self.now }
        ensures { slice_get self.now at ≡ Some (arc_value result.now) }
    {
        let piece = self.piece(at);
        &piece.cells.as_slice()[at - piece.start()]
    }

    /// The same; None from the number of rows on.
    pub(crate) fn row(&self, at: usize) -> Option<&Cell>
        ensures { option_map arc_value (option_copied result) ≡ slice_get self.now at }
    {
        if at < self.len() {
            Some(self.cell(at))
        } else {
            None
        }
    }
}

// Which piece has the row with this number: mostly the one that would have it if all were full.
fn place_of(pieces: &[Piece], at: usize) -> usize
    requires ends { HaveEnds pieces.now }
    requires at { at < length (rows_of pieces.now) }
    ensures place { result < length pieces.now }
    ensures start { length (rows_of (take result pieces.now)) ≤ at }
    ensures within { at < length (rows_of (take (result + 1) pieces.now)) }
{
    let guess = at / MOST;
    if guess < pieces.len() && pieces[guess].has(at) {
        return guess;
    }
    place_near(pieces, at, guess)
}

// The same. It is sought first beside a place, and then farther and farther away.
fn place_near(pieces: &[Piece], at: usize, place: usize) -> usize
    requires ends { HaveEnds pieces.now }
    requires at { at < length (rows_of pieces.now) }
    ensures place { result < length pieces.now }
    ensures start { length (rows_of (take result pieces.now)) ≤ at }
    ensures within { at < length (rows_of (take (result + 1) pieces.now)) }
{
    let mut low = 0;
    let mut high = pieces.len();
    let mut next = place;
    let mut reach = 1;
    'seeking: while low < high {
        let tried = if reach < high - low {
            nearest(low, high, next)
        } else {
            low + (high - low) / 2
        };
        if pieces[tried].end <= at {
            low = tried + 1;
            next = tried.saturating_add(reach);
        } else {
            high = tried;
            next = tried.saturating_sub(reach);
        }
        reach = reach.saturating_mul(2);
    }
    low
}

// The number that is nearest to this one, from the low one on and below the high one.
fn nearest(low: usize, high: usize, number: usize) -> usize
    requires { low < high }
    ensures low { low ≤ result }
    ensures high { result < high }
{
    number.min(high - 1).max(low)
}
