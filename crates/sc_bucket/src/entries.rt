ghost use Rattle.std.specs.Iterator.{YieldsFirstBy, item_count};
ghost use Rattle.sc_bucket.specs.Entries.{entry_of};

use sc_record::{Cell, Entry};
use std::marker::Model;
use std::slice;

/// What an entry of a journal is, without what it has besides.
#[derive(Clone, Copy, Debug)]
pub(crate) enum Mark {
    Write,
    Settled,
    Committed,
    Other,
}

/// An entry of a journal, lent.
#[derive(Clone, Copy)]
pub enum EntryRef<'a> {
    Write(&'a Cell),
    Settled { place: u64 },
    Committed,
    /// An entry of a split or of a core, whole.
    Other(&'a Entry),
}

/// The entries of a journal that are still to be lent, the oldest first, which contracts see as the list of them.
#[derive(Drop)]
pub struct Entries<'a> {
    pub(crate) marks: slice::Iter<'a, Mark>,
    pub(crate) writes: slice::Iter<'a, Cell>,
    pub(crate) settled: slice::Iter<'a, u64>,
    pub(crate) others: slice::Iter<'a, Entry>,
}

impl<'a> Model for Entries<'a> {
    ghost use Rattle.std.specs.Prelude.{List};
    ghost use Rattle.std.specs.Slice.Iter.{iter_rest};
    ghost use Rattle.sc_record.specs.declared.entry.Entry.{Entry};

    ghost Value = { List Entry };

    ghost use Rattle.sc_bucket.specs.Entries.{entries_of, AreParts};

    ghost view = { λ a. entries_of (iter_rest a.marks) (iter_rest a.writes) (iter_rest a.settled) (iter_rest a.others) };

    ghost invariant = { λ a. AreParts (iter_rest a.marks) (iter_rest a.writes) (iter_rest a.settled) (iter_rest a.others) };
}

impl<'a> Iterator for Entries<'a> {
    type Item = EntryRef<'a>;

    ghost next_gives = { YieldsFirstBy entry_of (λ rest. rest) };

    ghost remaining = { item_count (λ rest. rest) };

    fn next(&mut self) -> Option<EntryRef<'a>> {
        let mark = self.marks.next()?;
        match *mark {
            Mark::Write => Some(EntryRef::Write(self.writes.next()?)),
            Mark::Settled => Some(EntryRef::Settled {
                place: *self.settled.next()?,
            }),
            Mark::Committed => Some(EntryRef::Committed),
            Mark::Other => Some(EntryRef::Other(self.others.next()?)),
        }
    }
}
