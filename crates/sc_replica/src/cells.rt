ghost use Rattle.std.specs.Prelude.{◌≡◌, ◌<◌, ◌≤◌, ◌+◌, ◌-◌, [], map, insert, max, min, length, slice_get, int_lt};
ghost use Rattle.std.specs.Prelude.{IsOk, IfOk, OnOk, OnErr, IsTrue, option_copied};
ghost use Rattle.std.specs.List.{AllWithin};
ghost use Rattle.std.specs.declared.cmp.Ordering.TheVariants.{Less};
ghost use Rattle.std.specs.VecDeque.{deque_len, deque_capacity};
ghost use Rattle.std.specs.Option.{option_map};
ghost use Rattle.std.specs.Arc.{arc_value};
ghost use Rattle.sc_record.specs.Writes.{write_of, AscendById};
ghost use Rattle.sc_replica.specs.Places.{IsSearchedPlace, compared};

use sc_record::{Cell, Id, List};
use std::alloc::{AllocError, Global};
use std::collections::VecDeque;
use std::marker::Model;
use std::sync::Arc;

/// The cells of a core, which contracts see as the list of their writes, ascending by the ids' bytes, and the number of
/// new ids for which there is room.
#[derive(Debug, Drop)]
pub struct Cells {
    cells: VecDeque<Cell>,
    // how many more cells fit, as far as callers have asked for room
    spare: usize,
}

impl Model for Cells {
    ghost use Rattle.std.specs.Prelude.{◌+◌, ◌≤◌, map};
    ghost use Rattle.std.specs.VecDeque.{deque_len, deque_capacity};
    ghost use Rattle.std.specs.Arc.{arc_value};
    ghost use Rattle.sc_record.specs.Writes.{AscendById};
    ghost use Rattle.sc_replica.specs.Cells.{CellsState};

    ghost Value = { CellsState };

    ghost view = { λ a. record { writes = map arc_value a.cells.items; spare = a.spare } };

    ghost invariant = { λ a. AscendById (map arc_value a.cells.items)
        × (deque_len a.cells + a.spare ≤ deque_capacity a.cells) };
}

impl Cells {
    ghost use Rattle.sc_replica.specs.Cells.{put, applied, spare_after};

    /// No cells and no room for any. It takes no memory.
    pub(crate) fn new(alloc: Global) -> Cells
        ensures { result ≡ record { writes = []; spare = 0 } }
    {
        Cells {
            cells: VecDeque::new(alloc),
            spare: 0,
        }
    }

    pub fn len(&self) -> usize
        ensures len { result ≡ length self.now.writes }
        ensures ascends { AscendById self.now.writes }
    {
        self.cells.len()
    }

    /// For how many new ids there is room.
    pub(crate) fn spare(&self) -> usize
        ensures { result ≡ self.now.spare }
    {
        self.spare
    }

    /// The cell of the id: a look at the last cell, and at most one binary search.
    pub fn get(&self, id: &Id) -> Option<&Cell>
        ensures cell { option_map arc_value (option_copied result) ≡ write_of self.now.writes id.now }
        ensures ascends { AscendById self.now.writes }
    {
        match place(&self.cells, id) {
            Ok(place) => Some(&self.cells[place]),
            Err(_) => None,
        }
    }

    /// The cell at this place, from 0, by the ids' bytes; None where there are not so many.
    pub fn nth(&self, i: usize) -> Option<&Cell>
        ensures cell { option_map arc_value (option_copied result) ≡ slice_get self.now.writes i }
        ensures ascends { AscendById self.now.writes }
    {
        self.cells.get(i)
    }

    /// A share of each cell, by the ids' bytes, in a list that has room for just these. An error means out of memory.
    pub fn share(&self, alloc: Global) -> Result<List<Cell>, AllocError>
        ensures cells { IfOk result (λ shares. map arc_value shares ≡ self.now.writes) }
        ensures ascends { AscendById self.now.writes }
    {
        let mut shares = Vec::with_capacity(alloc, self.cells.len())?;
        for cell in &self.cells {
            shares.push(Arc::try_clone(cell)?)?;
        }
        Ok(List::from_vec(shares))
    }

    /// Makes room for at least `n` new ids. An error means out of memory.
    pub(crate) fn reserve(&mut self, n: usize) -> Result<(), AllocError>
        ensures ok { OnOk result (self.new ≡ record self.old { spare = max self.old.spare n }) }
        ensures err { OnErr result (self.new ≡ self.old) }
        ensures has_room { n ≤ self.old.spare → IsOk result }
    {
        if n > self.spare {
            self.cells.reserve(n)?;
            self.spare = n;
        }
        Ok(())
    }

    /// Gives up the room above that for `n` new ids.
    pub(crate) fn limit_spare(&mut self, n: usize)
        ensures { self.new ≡ record self.old { spare = min self.old.spare n } }
    {
        self.spare = self.spare.min(n);
    }

    /// Puts the write in the place of its id's cell, or in order where its id has none: a look at the last cell, at
    /// most one binary search, and at most one move of the shorter side of the cells.
    pub(crate) fn put(&mut self, write: Cell)
        requires { 0 < self.old.spare }
        ensures { self.new ≡ record {
          writes = put self.old.writes (arc_value write);
          spare = spare_after self.old.writes self.old.spare (arc_value write);
        } }
    {
        match place(&self.cells, write.id()) {
            Ok(place) => self.cells[place] = write,
            Err(place) => insert_reserved(&mut self.cells, &mut self.spare, place, write),
        }
    }

    /// Puts the write in, or drops it where its version isn't greater than that of its id's cell: a look at
    /// the last cell, at most one binary search, and at most one move of the shorter side of the cells.
    pub(crate) fn apply(&mut self, write: Cell)
        requires { 0 < self.old.spare }
        ensures { self.new ≡ record {
          writes = applied self.old.writes (arc_value write);
          spare = spare_after self.old.writes self.old.spare (arc_value write);
        } }
    {
        match place(&self.cells, write.id()) {
            Ok(place) => {
                if is_above(&self.cells[place], &write) {
                    self.cells[place] = write;
                }
            }
            Err(place) => insert_reserved(&mut self.cells, &mut self.spare, place, write),
        }
    }
}

// Where the id's cell is, or else where it would be put in: the end where the id is above all, else found by a search. Ids that
// come in their order are so put in without one.
fn place(cells: &VecDeque<Cell>, id: &Id) -> Result<usize, usize>
    requires { AscendById (map arc_value cells.now.items) }
    ensures { IsSearchedPlace (map arc_value cells.now.items) id.now result }
{
    if is_above_all(cells, id) {
        return Err(cells.len());
    }
    search(cells, id)
}

// Whether the id is above that of the last cell, and so above all.
fn is_above_all(cells: &VecDeque<Cell>, id: &Id) -> bool
    requires { AscendById (map arc_value cells.now.items) }
    ensures { IsTrue result → AllWithin (λ write. compared id.now write ≡ Less) (map arc_value cells.now.items) 0 (length cells.now.items) }
{
    match cells.back() {
        Some(last) => last.id().as_str().cmp(id.as_str()).is_lt(),
        None => true,
    }
}

// The same by one binary search over all cells.
fn search(cells: &VecDeque<Cell>, id: &Id) -> Result<usize, usize>
    requires { AscendById (map arc_value cells.now.items) }
    ensures { IsSearchedPlace (map arc_value cells.now.items) id.now result }
{
    let id = id.as_str();
    cells.binary_search_by(|cell| cell.id().as_str().cmp(id))
}

// Puts the write in before the cell at this place, in the room that there is, and takes one place of it. The shorter side
// of the cells moves.
fn insert_reserved(cells: &mut VecDeque<Cell>, spare: &mut usize, place: usize, write: Cell)
    requires place { place ≤ deque_len cells.old }
    requires some { 0 < spare.old }
    requires room { deque_len cells.old + spare.old ≤ deque_capacity cells.old }
    ensures items { cells.new.items ≡ insert cells.old.items place write }
    ensures spare { spare.new ≡ spare.old - 1 }
    ensures room { deque_len cells.new + spare.new ≤ deque_capacity cells.new }
{
    let inserted = cells.insert(place, write);
    prove!(inserted.is_ok());
    *spare -= 1;
}

// Whether the write's version is greater than the cell's.
fn is_above(cell: &Cell, write: &Cell) -> bool
    ensures { result ≡ int_lt (arc_value cell.now).version (arc_value write.now).version }
{
    cell.version() < write.version()
}
