ghost use Rattle.std.specs.Prelude.{◌≡◌, ◌<◌, ◌≤◌, ◌↔◌, [], pos, true, false, ◌<ℤ◌, length, max};
ghost use Rattle.std.specs.Prelude.{IsTrue, IsOk, OnOk, OnErr, option_copied};
ghost use Rattle.std.specs.Option.{option_map};
ghost use Rattle.std.specs.Arc.{arc_value};
ghost use Rattle.sc_record.specs.Writes.{write_of};
ghost use Rattle.std.specs.Int.{int_max};
ghost use Rattle.sc_replica.specs.Cells.{put, applied, spare_after};
ghost use Rattle.sc_replica.specs.Core.{IsCore, led, fed, received, replayed, replayed_next, finished};

use crate::cells::Cells;
use sc_record::{Cell, CoreId, Id};
use sc_ulog::{Log, Mode};
use std::alloc::{AllocError, Global};
use std::marker::Model;

/// How many writes a replay applies at most.
const REPLAY_LIMIT: usize = 64;

/// One core: its cells, its update log, its clock, and whether it is marked as down, which contracts see as a `Core`. Its name is the
/// seat that it sits in, and its number is its own: the two part where another core takes the lead. All calls but `reserve` take no
/// memory.
#[derive(Drop)]
pub struct Replica {
    core: CoreId,
    number: u8,
    cells: Cells,
    log: Log<Cell>,
    clock: i64,
    down: bool,
}

impl Model for Replica {
    ghost use Rattle.sc_replica.specs.Core.{Core, IsCore};

    ghost Value = { Core };

    ghost use Rattle.sc_replica.specs.View.{core_of};

    ghost view = { core_of };

    ghost invariant = { λ a. IsCore (core_of a) };
}

impl Replica {
    /// The core that sits in this seat from the first on: without cells, with an empty log in this mode and with its clock at 0. It
    /// takes no memory.
    pub fn new(alloc: Global, core: CoreId, mode: Mode) -> Replica
        ensures value { result ≡ record {
          core = core;
          number = core.replica;
          cells = [];
          mode = mode;
          buffer = [];
          clock = pos 0;
          down = false;
          cell_spare = 0;
          buffer_spare = 0;
        } }
        ensures core { IsCore result }
    {
        Replica {
            core,
            number: core.replica,
            cells: Cells::new(alloc),
            log: Log::new(alloc, mode),
            clock: 0,
            down: false,
        }
    }

    pub fn core(&self) -> CoreId
        ensures value { result ≡ self.now.core }
        ensures core { IsCore self.now }
    {
        self.core
    }

    pub fn mode(&self) -> Mode
        ensures value { result ≡ self.now.mode }
        ensures core { IsCore self.now }
    {
        self.log.mode()
    }

    /// The greatest version that it has applied, 0 where there is none.
    pub fn clock(&self) -> i64
        ensures value { result ≡ self.now.clock }
        ensures core { IsCore self.now }
    {
        self.clock
    }

    /// Whether it is marked as down.
    pub fn is_down(&self) -> bool
        ensures value { result ≡ self.now.down }
        ensures core { IsCore self.now }
    {
        self.down
    }

    /// Marks it as down: it keeps all that it has.
    pub fn mark_down(&mut self)
        ensures value { self.new ≡ record self.old { down = true } }
        ensures core { IsCore self.new }
    {
        self.down = true;
    }

    /// Its own number among the slice's cores, from 1.
    pub fn number(&self) -> u8
        ensures value { result ≡ self.now.number }
        ensures core { IsCore self.now }
    {
        self.number
    }

    /// Gives it this number.
    pub fn set_number(&mut self, number: u8)
        ensures value { self.new ≡ record self.old { number = number } }
        ensures core { IsCore self.new }
    {
        self.number = number;
    }

    /// Has it sit in this seat, which is down or not: it keeps all that it has.
    pub fn take_seat(&mut self, seat: CoreId, down: bool)
        ensures value { self.new ≡ record self.old { core = seat; down = down } }
        ensures core { IsCore self.new }
    {
        self.core = seat;
        self.down = down;
    }

    pub fn cells(&self) -> &Cells
        ensures value { result.now ≡ record { writes = self.now.cells; spare = self.now.cell_spare } }
        ensures core { IsCore self.now }
    {
        &self.cells
    }

    /// The cell of the id.
    pub fn cell(&self, id: &Id) -> Option<&Cell>
        ensures value { option_map arc_value (option_copied result) ≡ write_of self.now.cells id.now }
        ensures core { IsCore self.now }
    {
        self.cells.get(id)
    }

    /// How many writes its buffer holds.
    pub fn buffered(&self) -> usize
        ensures value { result ≡ length self.now.buffer }
        ensures core { IsCore self.now }
    {
        self.log.len()
    }

    /// Makes room for at least `n` new ids among the cells and for `n` more writes in the buffer. An error means out of
    /// memory.
    pub fn reserve(&mut self, n: usize) -> Result<(), AllocError>
        ensures ok { OnOk result (self.new ≡ record self.old {
          cell_spare = max self.old.cell_spare n;
          buffer_spare = max self.old.buffer_spare n;
        }) }
        ensures err { OnErr result (self.new ≡ self.old) }
        ensures has_room { n ≤ self.old.cell_spare → n ≤ self.old.buffer_spare → IsOk result }
        ensures core { IsCore self.new }
    {
        let spare = self.cells.spare();
        self.cells.reserve(n)?;
        if let Err(refused) = self.log.reserve(n) {
            self.cells.limit_spare(spare);
            return Err(refused);
        }
        Ok(())
    }

    /// Puts in a write of its own, as a leader does.
    pub fn lead(&mut self, write: Cell)
        requires above { self.old.clock <ℤ (arc_value write).version }
        requires room { 0 < self.old.cell_spare }
        ensures value { self.new ≡ led self.old (arc_value write) }
        ensures core { IsCore self.new }
    {
        put(&mut self.cells, &mut self.clock, write);
    }

    /// Takes a write that a leader sent: a buffering core keeps it, any other applies it.
    pub fn receive(&mut self, write: Cell)
        requires cell_room { 0 < self.old.cell_spare }
        requires buffer_room { 0 < self.old.buffer_spare }
        ensures value { self.new ≡ received self.old (arc_value write) }
        ensures core { IsCore self.new }
    {
        match self.log.mode() {
            Mode::Buffering => self.log.append(write),
            Mode::Active | Mode::Replaying => apply(&mut self.cells, &mut self.clock, write),
        }
    }

    /// Applies a write from a snapshot, in whatever mode.
    pub fn feed(&mut self, write: Cell)
        requires { 0 < self.old.cell_spare }
        ensures value { self.new ≡ fed self.old (arc_value write) }
        ensures core { IsCore self.new }
    {
        apply(&mut self.cells, &mut self.clock, write);
    }

    /// From here on what was buffered is replayed, and what comes is applied.
    pub fn start_replay(&mut self)
        requires { self.old.mode ≡ Mode.Buffering }
        ensures value { self.new ≡ record self.old { mode = Mode.Replaying } }
        ensures core { IsCore self.new }
    {
        self.log.start_replay();
    }

    /// Applies the oldest 64 writes of the buffer, or all where they are fewer, and says whether the buffer is empty
    /// then. With that the core is active.
    pub fn replay(&mut self) -> bool
        requires replaying { self.old.mode ≡ Mode.Replaying }
        requires room { length self.old.buffer ≤ self.old.cell_spare }
        ensures value { self.new ≡ replayed self.old }
        ensures done { IsTrue result ↔ (self.new.buffer ≡ []) }
        ensures active { IsTrue result ↔ (self.new.mode ≡ Mode.Active) }
        ensures core { IsCore self.new }
    {
        let count = self.buffered().min(REPLAY_LIMIT);
        for _next in 0..count {
            self.replay_next();
        }
        self.finish()
    }

    // Applies the oldest write of the buffer.
    fn replay_next(&mut self)
        requires replaying { self.old.mode ≡ Mode.Replaying }
        requires not_empty { 0 < length self.old.buffer }
        requires room { 0 < self.old.cell_spare }
        ensures { self.new ≡ replayed_next self.old }
    {
        if let Some(write) = self.log.next() {
            apply(&mut self.cells, &mut self.clock, write);
        }
    }

    // Makes the core active where its buffer is empty, and says whether it is.
    fn finish(&mut self) -> bool
        requires { self.old.mode ≡ Mode.Replaying }
        ensures value { self.new ≡ finished self.old }
        ensures done { IsTrue result ↔ (self.old.buffer ≡ []) }
        ensures core { IsCore self.new }
    {
        let is_empty = self.log.len() == 0;
        if is_empty {
            self.log.finish();
        }
        is_empty
    }
}

// Puts a write into the cells, and sets the clock to its version.
fn put(cells: &mut Cells, clock: &mut i64, write: Cell)
    requires { 0 < cells.old.spare }
    ensures cells { cells.new ≡ record {
      writes = put cells.old.writes (arc_value write);
      spare = spare_after cells.old.writes cells.old.spare (arc_value write);
    } }
    ensures clock { clock.new ≡ (arc_value write).version }
{
    *clock = write.version();
    cells.put(write);
}

// Applies a write to the cells, and raises the clock to at least its version.
fn apply(cells: &mut Cells, clock: &mut i64, write: Cell)
    requires { 0 < cells.old.spare }
    ensures cells { cells.new ≡ record {
      writes = applied cells.old.writes (arc_value write);
      spare = spare_after cells.old.writes cells.old.spare (arc_value write);
    } }
    ensures clock { clock.new ≡ int_max clock.old (arc_value write).version }
{
    *clock = (*clock).max(write.version());
    cells.apply(write);
}
