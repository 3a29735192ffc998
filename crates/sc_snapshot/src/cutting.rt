ghost use Rattle.std.specs.Prelude.{◌≡◌, ◌+◌, ◌-◌, ◌^◌, ◌<◌, ◌≤◌, [], ◌∷◌, ◌++◌, map, length, take, drop, IfOk, IsTrue, OnOk};
ghost use Rattle.std.specs.Arc.{arc_value};
ghost use Rattle.sc_snapshot.specs.Edits.{put_in};
ghost use Rattle.sc_snapshot.specs.Pieces.{rows_in, start_of};

use crate::edits::Edit;
use crate::pieces::{MOST, Piece, Pieces};
use sc_record::{Cell, List};
use std::alloc::{AllocError, Global};
use std::marker::Model;
use std::mem;
use std::sync::Arc;

// A piece beside a change is copied into the change's where that has fewer cells, so that pieces stay few.
const FEWEST: usize = 16;

/// New pieces as they are made. Contracts see the list of the rows so far.
#[derive(Drop)]
pub(crate) struct Cutting {
    pieces: Pieces,
    /// The last cells, which are in no piece yet.
    loose: Vec<Cell>,
    alloc: Global,
}

impl Model for Cutting {
    ghost use Rattle.std.specs.Prelude.{◌++◌, List, map};
    ghost use Rattle.std.specs.Arc.{arc_value};
    ghost use Rattle.sc_record.specs.Writes.{Write};

    ghost Value = { List Write };

    ghost view = { λ a. a.pieces ++ map arc_value a.loose.items };
}

/// These cells in pieces of their own. The only error is that memory was refused.
pub(crate) fn pieces_of(alloc: Global, cells: Vec<Cell>) -> Result<Pieces, AllocError>
    requires { length cells.items ≤ 2 ^ 24 }
    ensures { IfOk result (λ pieces. pieces ≡ map arc_value cells.items) }
{
    let mut pieces = Pieces::new(alloc);
    cut(&mut pieces, alloc, cells)?;
    Ok(pieces)
}

impl Cutting {
    /// No rows.
    pub(crate) fn new(alloc: Global) -> Cutting
        ensures { result ≡ [] }
    {
        Cutting {
            pieces: Pieces::new(alloc),
            loose: Vec::new(alloc),
            alloc,
        }
    }

    /// Puts the old rows from this number up to the edit at the end, and then a share of the edit's cell. A piece that no edit falls into is
    /// shared, and no other cell is shared one by one than those of the pieces beside an edit. The only error is that memory was
    /// refused.
    pub(crate) fn put(&mut self, rows: &Pieces, from: usize, edit: &Edit) -> Result<(), AllocError>
        requires from { from ≤ edit.now.at }
        requires to { edit.now.at ≤ length rows.now }
        requires bounded { length self.old + (edit.now.at - from) ≤ 2 ^ 24 }
        ensures { OnOk result (self.new ≡ (self.old ++ take (edit.now.at - from) (drop from rows.now)) ++ put_in edit.now ∷ []) }
    {
        self.copy(rows, from, edit.at, false)?;
        self.push(edit.cell)
    }

    // Puts the cell at the end.
    fn push(&mut self, cell: &Cell) -> Result<(), AllocError>
        ensures { OnOk result (self.new ≡ self.old ++ arc_value cell.now ∷ []) }
    {
        self.loose.push(Arc::try_clone(cell)?)?;
        Ok(())
    }

    /// Puts these rows at the end: the last ones, or else those up to an edit.
    pub(crate) fn copy(
        &mut self,
        rows: &Pieces,
        from: usize,
        to: usize,
        are_last: bool,
    ) -> Result<(), AllocError>
        requires from { from ≤ to }
        requires to { to ≤ length rows.now }
        requires bounded { length self.old + (to - from) ≤ 2 ^ 24 }
        ensures { OnOk result (self.new ≡ self.old ++ take (to - from) (drop from rows.now)) }
    {
        let mut at = from;
        'copying: while at < to {
            at = self.copy_some(rows, at, to, are_last)?;
        }
        Ok(())
    }

    // Puts those of the rows at the end that one piece has, and gives the number of the next row.
    fn copy_some(
        &mut self,
        rows: &Pieces,
        at: usize,
        to: usize,
        are_last: bool,
    ) -> Result<usize, AllocError>
        requires from { at < to }
        requires to { to ≤ length rows.now }
        requires bounded { length self.old + (to - at) ≤ 2 ^ 24 }
        ensures more { IfOk result (λ next. at < next) }
        ensures up_to { IfOk result (λ next. next ≤ to) }
        ensures rows { IfOk result (λ next. self.new ≡ self.old ++ take (next - at) (drop at rows.now)) }
    {
        let piece = rows.piece(at);
        if self.may_share(piece, at, to, are_last) {
            self.share(Arc::try_clone(&piece.cells)?)?;
            Ok(piece.end)
        } else {
            let end = piece.end.min(to);
            let start = piece.start();
            self.copy_cells(piece.part(at - start, end - start))?;
            Ok(end)
        }
    }

    // Whether the piece is shared: all its rows are wanted, no edit comes at its end, and there are not too few cells before it that are
    // in no piece.
    fn may_share(&self, piece: &Piece, at: usize, to: usize, are_last: bool) -> bool
        requires { length (rows_in piece.now) ≤ piece.now.end }
        ensures start { IsTrue result → at ≡ start_of piece.now }
        ensures end { IsTrue result → piece.now.end ≤ to }
    {
        let is_apart = piece.end < to || (are_last && piece.end == to);
        let are_enough = self.loose.is_empty() || self.loose.len() >= FEWEST;
        at == piece.start() && is_apart && are_enough
    }

    // Puts the piece at the end, after the last cells in pieces of their own.
    fn share(&mut self, cells: Arc<List<Cell>>) -> Result<(), AllocError>
        requires { length self.old + length (arc_value cells) ≤ 2 ^ 24 }
        ensures { OnOk result (self.new ≡ self.old ++ map arc_value (arc_value cells)) }
    {
        let loose = mem::replace(&mut self.loose, Vec::new(self.alloc));
        cut(&mut self.pieces, self.alloc, loose)?;
        self.pieces.push(cells)
    }

    // Puts these cells at the end, one by one.
    fn copy_cells(&mut self, cells: &[Cell]) -> Result<(), AllocError>
        ensures { OnOk result (self.new ≡ self.old ++ map arc_value cells.now) }
    {
        push_shares(&mut self.loose, cells)
    }

    /// All pieces.
    pub(crate) fn finish(self) -> Result<Pieces, AllocError>
        requires { length self ≤ 2 ^ 24 }
        ensures { IfOk result (λ pieces. pieces ≡ self) }
    {
        let Cutting {
            mut pieces,
            loose,
            alloc,
        } = self;
        cut(&mut pieces, alloc, loose)?;
        Ok(pieces)
    }
}

// Puts a share of each of these cells at the end. Room is made once for all of them.
fn push_shares(list: &mut Vec<Cell>, cells: &[Cell]) -> Result<(), AllocError>
    ensures { OnOk result (map arc_value list.new.items ≡ map arc_value list.old.items ++ map arc_value cells.now) }
{
    list.reserve(cells.len())?;
    for cell in cells {
        let share = Arc::try_clone(cell)?;
        list.push_reserved(share);
    }
    Ok(())
}

// Puts the cells at the end in pieces, as few as may be and of one size but for the last. Where they fit into one piece they are it as
// they are.
fn cut(pieces: &mut Pieces, alloc: Global, cells: Vec<Cell>) -> Result<(), AllocError>
    requires { length pieces.old + length cells.items ≤ 2 ^ 24 }
    ensures { OnOk result (pieces.new ≡ pieces.old ++ map arc_value cells.items) }
{
    if cells.len() <= MOST {
        push_all(pieces, alloc, cells)
    } else {
        cut_many(pieces, alloc, cells)
    }
}

// Puts the cells at the end as one piece, where there are any.
fn push_all(pieces: &mut Pieces, alloc: Global, cells: Vec<Cell>) -> Result<(), AllocError>
    requires { length pieces.old + length cells.items ≤ 2 ^ 24 }
    ensures { OnOk result (pieces.new ≡ pieces.old ++ map arc_value cells.items) }
{
    if !cells.is_empty() {
        let mut piece = cells;
        piece.shrink_to_fit();
        push_piece(pieces, alloc, piece)?;
    }
    Ok(())
}

// Puts the cells at the end in pieces of one size, but for the last.
fn cut_many(pieces: &mut Pieces, alloc: Global, cells: Vec<Cell>) -> Result<(), AllocError>
    requires { length pieces.old + length cells.items ≤ 2 ^ 24 }
    ensures { OnOk result (pieces.new ≡ pieces.old ++ map arc_value cells.items) }
{
    let size = size_of(cells.len());
    let mut piece = Vec::new(alloc);
    for cell in cells {
        fill(pieces, &mut piece, alloc, size, cell)?;
    }
    if !piece.is_empty() {
        push_piece(pieces, alloc, piece)?;
    }
    Ok(())
}

// Puts the cell at the end of the last piece, which is done once it has its size.
fn fill(
    pieces: &mut Pieces,
    piece: &mut Vec<Cell>,
    alloc: Global,
    size: usize,
    cell: Cell,
) -> Result<(), AllocError>
    requires { length pieces.old + length piece.old.items < 2 ^ 24 }
    ensures { OnOk result (pieces.new ++ map arc_value piece.new.items
        ≡ pieces.old ++ map arc_value piece.old.items ++ arc_value cell ∷ []) }
{
    piece.push(cell)?;
    if piece.len() >= size {
        let full = mem::replace(piece, Vec::new(alloc));
        push_piece(pieces, alloc, full)?;
    }
    Ok(())
}

// How many of so many cells one piece has.
fn size_of(cells: usize) -> usize {
    cells.div_ceil(cells.div_ceil(MOST).max(1))
}

// Puts the cells at the end as one piece.
fn push_piece(pieces: &mut Pieces, alloc: Global, cells: Vec<Cell>) -> Result<(), AllocError>
    requires { length pieces.old + length cells.items ≤ 2 ^ 24 }
    ensures { OnOk result (pieces.new ≡ pieces.old ++ map arc_value cells.items) }
{
    pieces.push(Arc::new(alloc, List::from_vec(cells))?)
}
