//! What a journal says of a seat: whether the core in it is down, and which core that is.

ghost use Rattle.std.specs.Prelude.{◌≡◌, Some, None, filter, nat_eq, IfOk, if◌then◌else◌};
ghost use Rattle.sc_record.specs.Names.{key_of_core, is_core};
ghost use Rattle.sc_journal.specs.Down.{down_after, is_down};
ghost use Rattle.sc_journal.specs.Seats.{seats};
ghost use Rattle.sc_restored.specs.Marks.{is_mark, resets, seat_before};

use sc_record::{CoreId, Entry, SliceId};
use std::alloc::{AllocError, Global};

/// The entries that say something of a seat: those of cores, and those that drop a slice. An error means out of memory.
pub(crate) fn marks_among(alloc: Global, entries: &[Entry]) -> Result<Vec<Entry>, AllocError>
    ensures { IfOk result (λ marks. marks.items ≡ filter is_mark entries.now) }
{
    let mut marks = Vec::new(alloc);
    for entry in entries {
        if let Some(mark) = mark_of(entry) {
            marks.push(mark)?;
        }
    }
    Ok(marks)
}

// The entry, where it says something of a seat.
fn mark_of(entry: &Entry) -> Option<Entry>
    ensures { result ≡ (if is_mark entry.now then Some entry.now else None) }
{
    match entry {
        Entry::Dropped { slice } => Some(Entry::Dropped { slice: *slice }),
        Entry::Down { core } => Some(Entry::Down { core: *core }),
        Entry::Up { core } => Some(Entry::Up { core: *core }),
        Entry::Led { core } => Some(Entry::Led { core: *core }),
        _ => None,
    }
}

/// Whether the core in the seat is down after the entries.
pub(crate) fn is_down(entries: &[Entry], seat: CoreId) -> bool
    ensures { result ≡ is_down entries.now (key_of_core seat) }
{
    let mut down = false;
    for entry in entries {
        down = down_after(seat, down, entry);
    }
    down
}

// Whether the core in the seat is down after the entry; `before` says whether it was before it.
fn down_after(seat: CoreId, before: bool, entry: &Entry) -> bool
    ensures { result ≡ down_after (key_of_core seat) before entry.now }
{
    match entry {
        Entry::Down { core } => is_same(seat, *core) || before,
        Entry::Led { core } => is_same(seat, *core) || before,
        Entry::Up { core } => !is_same(seat, *core) && before,
        Entry::Dropped { slice } => seat.slice.0 != slice.0 && before,
        _ => before,
    }
}

// The two are one seat.
fn is_same(seat: CoreId, other: CoreId) -> bool
    ensures { result ≡ is_core seat other }
{
    seat.slice.0 == other.slice.0 && seat.replica == other.replica
}

/// The number of the core that sits in the seat after the entries. They are gone over from the last on.
pub(crate) fn number_in(entries: &[Entry], seat: CoreId) -> u8
    ensures { result ≡ seats entries.now seat.slice seat.replica }
{
    let mut at = seat.replica;
    let mut left = entries.len();
    while left > 0 {
        left -= 1;
        let entry = &entries[left];
        if resets(seat.slice, entry) {
            return at;
        }
        at = seat_before(seat.slice, entry, at);
    }
    at
}

// The entry takes the slice away, so that a later one of its id begins anew.
fn resets(slice: SliceId, entry: &Entry) -> bool
    ensures { result ≡ resets slice entry.now }
{
    match entry {
        Entry::Dropped { slice: other } => other.0 == slice.0,
        _ => false,
    }
}

// The seat, before the entry, of the core that sits at this one after it.
fn seat_before(slice: SliceId, entry: &Entry, at: u8) -> u8
    ensures { result ≡ seat_before slice entry.now at }
{
    match entry {
        Entry::Led { core } => {
            if core.slice.0 == slice.0 {
                other_seat(core.replica, at)
            } else {
                at
            }
        }
        _ => at,
    }
}

// The seat that changes places with this one where the core in the other takes the lead; itself where it changes none.
fn other_seat(seat: u8, at: u8) -> u8
    ensures { result ≡ (if nat_eq at 1 then seat else if nat_eq at seat then 1 else at) }
{
    if at == 1 {
        seat
    } else if at == seat {
        1
    } else {
        at
    }
}
