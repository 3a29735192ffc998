ghost use Rattle.std.specs.Prelude.{◌≡◌, ◌<◌, ◌≤◌, ◌-◌, ◌↔◌, [], ◌∷◌, ◌++◌, length, map, drop, max, IfSome, IsSome, OnOk, OnErr};
ghost use Rattle.std.specs.Arc.{arc_value};
ghost use Rattle.sc_journal.specs.Committed.{last_commit};
ghost use Rattle.sc_bucket.specs.Entries.{uncommitted};
ghost use Rattle.sc_bucket.specs.Gone.{went_of};

use crate::entries::{Entries, Mark};
use crate::last::{last_of, others_among, settlings_among, writes_among};
use http_server::Log;
use sc_record::{Cell, Entry};
use std::alloc::{AllocError, Global};
use std::marker::Model;

/// The lists in which the entries of a journal are kept, and room for more, which contracts see as a number. An entry takes a byte, and 8
/// more where it is a write or settles one. The writes below an entry may be let go: then contracts alone have them.
#[derive(Drop)]
pub(crate) struct Lists {
    // one for each entry
    marks: Vec<Mark>,
    // what each write has besides, but for those that were let go
    writes: Vec<Cell>,
    // the writes as they were each time that some were let go, and how many of the first of them these were. It takes no memory
    gone: Log<Vec<Cell>, usize>,
    // the places that are settled, in the order of the entries that settle them
    settled: Vec<u64>,
    // the entries of splits and of cores, whole
    others: Vec<Entry>,
    // how many more entries fit, as far as callers have asked for room
    room: usize,
    // how many of the writes that are there came before the last entry that commits
    committed: usize,
    // the place of that entry, or 0
    commit: usize,
    // the place of the entry below which writes were let go
    from: usize,
}

impl Model for Lists {
    ghost use Rattle.std.specs.Prelude.{◌≡◌, ◌+◌, ◌≤◌, ◌++◌, length, vec_len, vec_capacity};
    ghost use Rattle.sc_bucket.specs.Kept.{ListsState};
    ghost use Rattle.sc_bucket.specs.Entries.{entries_of, let_go_of, AreParts, AreCounted, AreGone};

    ghost Value = { ListsState };

    ghost view = { λ a. record {
      entries = entries_of a.marks.items (let_go_of a.gone.items ++ a.writes.items) a.settled.items a.others.items;
      room = a.room;
      gone = a.from;
    } };

    ghost invariant = { λ a. AreParts a.marks.items (let_go_of a.gone.items ++ a.writes.items) a.settled.items a.others.items
        × (vec_len a.marks + a.room ≤ vec_capacity a.marks) × (vec_len a.writes + a.room ≤ vec_capacity a.writes)
        × (vec_len a.settled + a.room ≤ vec_capacity a.settled) × (vec_len a.others + a.room ≤ vec_capacity a.others)
        × AreCounted (entries_of a.marks.items (let_go_of a.gone.items ++ a.writes.items) a.settled.items a.others.items)
        (let_go_of a.gone.items ++ a.writes.items) (length (let_go_of a.gone.items) + a.committed)
        × AreGone (entries_of a.marks.items (let_go_of a.gone.items ++ a.writes.items) a.settled.items a.others.items)
        (length (let_go_of a.gone.items)) a.from a.commit };
}

impl Lists {
    // No entries, and no room. It takes no memory.
    pub(crate) fn new(alloc: Global) -> Lists
        ensures { result ≡ record { entries = []; room = 0; gone = 0 } }
    {
        Lists {
            marks: Vec::new(alloc),
            writes: Vec::new(alloc),
            gone: Log::new(),
            settled: Vec::new(alloc),
            others: Vec::new(alloc),
            room: 0,
            committed: 0,
            commit: 0,
            from: 0,
        }
    }

    pub(crate) fn len(&self) -> u64
        ensures { result ≡ length self.now.entries }
    {
        self.marks.len() as u64
    }

    // The place of the last entry that commits, or 0.
    pub(crate) fn commit(&self) -> usize
        ensures { result ≡ last_commit self.now.entries }
    {
        self.commit
    }

    // The place of the entry below which writes were let go.
    pub(crate) fn gone(&self) -> usize
        ensures { result ≡ self.now.gone }
    {
        self.from
    }

    // The last n entries, the oldest of them first, one after another; None exactly where a write among them was let go. The others are not
    // looked at.
    pub(crate) fn last(&self, n: usize) -> Option<Entries<'_>>
        requires { n ≤ length self.now.entries }
        ensures lent { IfSome result (λ rest. rest ≡ drop (length self.now.entries - n) self.now.entries) }
        ensures there { IsSome result ↔ (went_of n self.now.gone self.now.entries ≡ []) }
    {
        let marks = last_of(self.marks.as_slice(), n);
        let count = writes_among(marks);
        if count > self.writes.len() {
            return None;
        }
        Some(Entries {
            marks: marks.iter(),
            writes: last_of(self.writes.as_slice(), count).iter(),
            settled: last_of(self.settled.as_slice(), settlings_among(marks)).iter(),
            others: last_of(self.others.as_slice(), others_among(marks)).iter(),
        })
    }

    // The writes after the last entry that commits, or all where none does, the oldest first.
    pub(crate) fn uncommitted_writes(&self) -> &[Cell]
        ensures { map arc_value result.now ≡ uncommitted self.now.entries }
    {
        &self.writes.as_slice()[self.committed..]
    }

    // Makes room for at least `n` more entries. An error means out of memory.
    pub(crate) fn reserve(&mut self, n: usize) -> Result<(), AllocError>
        ensures ok { OnOk result (self.new ≡ record self.old { room = max self.old.room n }) }
        ensures err { OnErr result (self.new ≡ self.old) }
    {
        if n > self.room {
            self.marks.reserve(n)?;
            self.writes.reserve(n)?;
            self.settled.reserve(n)?;
            self.others.reserve(n)?;
            self.room = n;
        }
        Ok(())
    }

    // Puts an entry at the end, in the room that `reserve` made. It takes no memory.
    pub(crate) fn append(&mut self, entry: Entry)
        requires { 0 < self.old.room }
        ensures { self.new ≡ record self.old { entries = self.old.entries ++ entry ∷ []; room = self.old.room - 1 } }
    {
        self.room -= 1;
        match entry {
            Entry::Write(cell) => {
                self.marks.push_reserved(Mark::Write);
                self.writes.push_reserved(cell);
            }
            Entry::Settled { place } => {
                self.marks.push_reserved(Mark::Settled);
                self.settled.push_reserved(place);
            }
            Entry::Committed => {
                self.commit = self.marks.len();
                self.marks.push_reserved(Mark::Committed);
                self.committed = self.writes.len();
            }
            Entry::Begun { parent, subs } => {
                self.commit = self.marks.len();
                self.marks.push_reserved(Mark::Other);
                self.others.push_reserved(Entry::Begun { parent, subs });
                self.committed = self.writes.len();
            }
            other => {
                self.marks.push_reserved(Mark::Other);
                self.others.push_reserved(other);
            }
        }
    }

    // Lets the writes go that are below this entry, which the last that commits is not before. It takes no memory.
    pub(crate) fn let_go(&mut self, below: usize)
        requires after { self.old.gone ≤ below }
        requires committed { below ≤ last_commit self.old.entries }
        ensures { self.new ≡ record self.old { gone = below } }
    {
        let count = writes_among(&self.marks.as_slice()[self.from..below]);
        self.gone = self.gone.and(&self.writes, &count);
        self.writes.drain(..count);
        self.committed -= count;
        self.from = below;
    }
}
