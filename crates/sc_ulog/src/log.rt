ghost use Rattle.std.specs.Prelude.{◌≡◌, ℕ, ◌+◌, ◌-◌, ◌<◌, ◌≤◌, ◌↔◌, [], ◌∷◌, ◌++◌, length, max, IsOk, OnOk, OnErr, IsNone, option_to_list};

use crate::mode::Mode;
use std::alloc::{AllocError, Global};
use std::collections::VecDeque;
use std::marker::Model;

/// The update log of one core, a queue with a mode.
#[derive(Drop)]
pub struct Log<E> {
    entries: VecDeque<E>,
    mode: Mode,
    // how many more entries fit, as far as callers have asked for room
    spare: usize,
}

impl<E> Model for Log<E> {
    ghost use Rattle.std.specs.Prelude.{◌+◌, ◌≤◌};
    ghost use Rattle.std.specs.VecDeque.{deque_len, deque_capacity};
    ghost use Rattle.sc_ulog.specs.LogState.{LogState, IsEmptyWhereActive};

    ghost Value = { LogState E };

    ghost view = { λ a. record { entries = a.entries.items; mode = a.mode; spare = a.spare } };

    ghost invariant = { λ a. IsEmptyWhereActive a.mode a.entries.items × (deque_len a.entries + a.spare ≤ deque_capacity a.entries) };
}

impl<E> Log<E> {
    ghost use Rattle.sc_ulog.specs.LogState.{IsEmptyWhereActive};

    /// An empty log with no room. It takes no memory.
    pub fn new(alloc: Global, mode: Mode) -> Self
        ensures { result ≡ record { entries = []; mode = mode; spare = 0 } }
    {
        Log {
            entries: VecDeque::new(alloc),
            mode,
            spare: 0,
        }
    }

    pub fn mode(&self) -> Mode
        ensures mode { result ≡ self.now.mode }
        ensures active { IsEmptyWhereActive self.now.mode self.now.entries }
    {
        self.mode
    }

    /// How many entries it holds.
    pub fn len(&self) -> usize
        ensures len { result ≡ length self.now.entries }
        ensures active { IsEmptyWhereActive self.now.mode self.now.entries }
    {
        self.entries.len()
    }

    /// Makes room for at least `n` more entries. An error means out of memory.
    pub fn reserve(&mut self, n: usize) -> Result<(), AllocError>
        ensures ok { OnOk result (self.new ≡ record self.old { spare = max self.old.spare n }) }
        ensures err { OnErr result (self.new ≡ self.old) }
        ensures has_room { n ≤ self.old.spare → IsOk result }
    {
        if n > self.spare {
            self.entries.reserve(n)?;
            self.spare = n;
        }
        Ok(())
    }

    /// Puts an entry at the end, in the room that `reserve` made. It takes no memory.
    pub fn append(&mut self, entry: E)
        requires buffering { self.old.mode ≡ Mode.Buffering }
        requires room { 0 < self.old.spare }
        ensures { self.new ≡ record self.old { entries = self.old.entries ++ entry ∷ []; spare = self.old.spare - 1 } }
    {
        self.entries.push_back_reserved(entry);
        self.spare -= 1;
    }

    /// From here on entries are taken out, and none is put in.
    pub fn start_replay(&mut self)
        requires { self.old.mode ≡ Mode.Buffering }
        ensures { self.new ≡ record self.old { mode = Mode.Replaying } }
    {
        self.mode = Mode::Replaying;
    }

    /// Takes the oldest entry out, in constant time.
    pub fn next(&mut self) -> Option<E>
        requires { self.old.mode ≡ Mode.Replaying }
        ensures oldest { self.old.entries ≡ option_to_list result ++ self.new.entries }
        ensures empty { IsNone result ↔ (self.old.entries ≡ []) }
        ensures others { self.new ≡ record self.old { entries = self.new.entries } }
    {
        self.entries.pop_front()
    }

    /// Ends the replay: from here on updates are applied as they come.
    pub fn finish(&mut self)
        requires replaying { self.old.mode ≡ Mode.Replaying }
        requires empty { self.old.entries ≡ [] }
        ensures { self.new ≡ record self.old { mode = Mode.Active } }
    {
        self.mode = Mode::Active;
    }
}
