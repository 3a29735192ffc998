ghost use Rattle.std.specs.Prelude.{◌≡◌, ◌<◌, ◌≤◌, ◌-◌, ◌↔◌, Some, None, [], ◌∷◌, ◌++◌, length, map, drop, max, IfOk, IfSome, IsSome, OnOk, OnErr};
ghost use Rattle.std.specs.Option.{option_map};
ghost use Rattle.std.specs.Arc.{arc_value};
ghost use Rattle.sc_bucket.specs.Entries.{uncommitted};
ghost use Rattle.sc_bucket.specs.Gone.{may_go, gone, went_of};

use crate::entries::Entries;
use crate::lists::Lists;
use sc_record::{Cell, Entry};
use std::alloc::{AllocError, Global};
use std::marker::Model;

/// The entries of a journal, the oldest first, and room for more, which contracts see as a number. An entry takes a byte, and 8 more where
/// it is a write or settles one. A write is let go once it is committed, and, where a log file is told of, once that file has it: then
/// contracts alone have the write, and the journal its mark.
#[derive(Drop)]
pub struct Journal {
    lists: Lists,
    // how many of the entries a log file has; none where no file is asked
    filed: Option<usize>,
}

impl Model for Journal {
    ghost use Rattle.std.specs.Prelude.{◌≡◌};
    ghost use Rattle.sc_journal.specs.Committed.{last_commit};
    ghost use Rattle.sc_bucket.specs.Kept.{JournalState};
    ghost use Rattle.sc_bucket.specs.Gone.{may_go};

    ghost Value = { JournalState };

    ghost view = { λ a. record { entries = a.lists.entries; room = a.lists.room; filed = a.filed } };

    ghost invariant = { λ a. a.lists.gone ≡ may_go a.filed (last_commit a.lists.entries) };
}

impl Journal {
    /// No entries, no room, and no file that is asked before writes are let go. It takes no memory.
    pub fn new(alloc: Global) -> Journal
        ensures { result ≡ record { entries = []; room = 0; filed = None } }
    {
        Journal {
            lists: Lists::new(alloc),
            filed: None,
        }
    }

    /// No entries, and room for at least `n`. An error means out of memory.
    pub(crate) fn with_room(alloc: Global, n: usize) -> Result<Journal, AllocError>
        ensures entries { IfOk result (λ journal. journal.entries ≡ []) }
        ensures room { IfOk result (λ journal. n ≤ journal.room) }
        ensures filed { IfOk result (λ journal. journal.filed ≡ None) }
    {
        let mut journal = Journal::new(alloc);
        journal.reserve(n)?;
        Ok(journal)
    }

    pub fn len(&self) -> u64
        ensures { result ≡ length self.now.entries }
    {
        self.lists.len()
    }

    /// The last n entries, the oldest of them first, one after another; None exactly where a write among them was let go. The others are not
    /// looked at.
    pub fn last(&self, n: usize) -> Option<Entries<'_>>
        requires { n ≤ length self.now.entries }
        ensures lent { IfSome result (λ rest. rest ≡ drop (length self.now.entries - n) self.now.entries) }
        ensures there { IsSome result ↔ (went_of n (gone self.now) self.now.entries ≡ []) }
    {
        self.lists.last(n)
    }

    /// The writes after the last entry that commits, or all where none does, the oldest first.
    pub fn uncommitted_writes(&self) -> &[Cell]
        ensures { map arc_value result.now ≡ uncommitted self.now.entries }
    {
        self.lists.uncommitted_writes()
    }

    /// Makes room for at least `n` more entries. An error means out of memory.
    pub fn reserve(&mut self, n: usize) -> Result<(), AllocError>
        ensures ok { OnOk result (self.new ≡ record self.old { room = max self.old.room n }) }
        ensures err { OnErr result (self.new ≡ self.old) }
    {
        self.lists.reserve(n)
    }

    /// Puts an entry at the end, in the room that `reserve` made. Where it commits, the writes before it are let go, as far as a file has
    /// them where one is asked. It takes no memory.
    pub fn append(&mut self, entry: Entry)
        requires { 0 < self.old.room }
        ensures { self.new ≡ record self.old { entries = self.old.entries ++ entry ∷ []; room = self.old.room - 1 } }
    {
        self.lists.append(entry);
        let below = going(self.filed, self.lists.commit());
        self.lists.let_go(below);
    }

    /// From here on no write is let go before a file is said to have it, by `note_filed`: the file has nothing yet.
    pub fn await_file(&mut self)
        requires { self.old.entries ≡ [] }
        ensures { self.new ≡ record self.old { filed = Some 0 } }
    {
        self.filed = Some(0);
    }

    /// The file that is asked has the first `n` entries: those of their writes that are committed are let go. Where no file is asked it
    /// does nothing. It takes no memory.
    pub fn note_filed(&mut self, n: usize)
        ensures { self.new ≡ record self.old { filed = option_map (max n) self.old.filed } }
    {
        if let Some(filed) = self.filed {
            let filed = n.max(filed);
            self.filed = Some(filed);
            let below = going(self.filed, self.lists.commit());
            self.lists.let_go(below);
        }
    }
}

// The place of the entry below which writes may go, where the last entry that commits is at `commit`.
fn going(filed: Option<usize>, commit: usize) -> usize
    ensures { result ≡ may_go filed commit }
{
    match filed {
        None => commit,
        Some(filed) => filed.min(commit),
    }
}
