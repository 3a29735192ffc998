ghost use Rattle.std.specs.Prelude.{◌≡◌, ◌<◌, ◌≤◌, ◌-◌, [], ◌∷◌, ◌++◌, length, max, OnOk, OnErr};

use sc_seen::BoardEntry;
use std::alloc::{AllocError, Global};
use std::marker::Model;

/// The entries of a board's journal, the oldest first, and room for more, which contracts see as a number.
#[derive(Debug, Drop)]
pub struct BoardJournal {
    entries: Vec<BoardEntry>,
    // how many more entries fit, as far as callers have asked for room
    room: usize,
}

impl Model for BoardJournal {
    ghost use Rattle.std.specs.Prelude.{◌+◌, ◌≤◌, vec_len, vec_capacity};
    ghost use Rattle.sc_board.specs.Kept.{BoardJournalState};

    ghost Value = { BoardJournalState };

    ghost view = { λ a. record { entries = a.entries.items; room = a.room } };

    ghost invariant = { λ a. vec_len a.entries + a.room ≤ vec_capacity a.entries };
}

impl BoardJournal {
    /// No entries, and no room. It takes no memory.
    pub fn new(alloc: Global) -> BoardJournal
        ensures { result ≡ record { entries = []; room = 0 } }
    {
        BoardJournal {
            entries: Vec::new(alloc),
            room: 0,
        }
    }

    pub fn len(&self) -> u64
        ensures { result ≡ length self.now.entries }
    {
        self.entries.len() as u64
    }

    /// The entries, the oldest first.
    pub fn as_slice(&self) -> &[BoardEntry]
        ensures { result.now ≡ self.now.entries }
    {
        self.entries.as_slice()
    }

    /// Makes room for at least `n` more entries. An error means out of memory.
    pub fn reserve(&mut self, n: usize) -> Result<(), AllocError>
        ensures ok { OnOk result (self.new ≡ record self.old { room = max self.old.room n }) }
        ensures err { OnErr result (self.new ≡ self.old) }
    {
        if n > self.room {
            self.entries.reserve(n)?;
            self.room = n;
        }
        Ok(())
    }

    /// Puts an entry at the end, in the room that `reserve` made. It takes no memory.
    pub fn append(&mut self, entry: BoardEntry)
        requires { 0 < self.old.room }
        ensures { self.new ≡ record { entries = self.old.entries ++ entry ∷ []; room = self.old.room - 1 } }
    {
        self.room -= 1;
        self.entries.push_reserved(entry);
    }
}
