ghost use Rattle.std.specs.Prelude.{◌≡◌, ◌≤◌, ◌^◌, ◌+◌, length, map, MatchOption};
ghost use Rattle.std.specs.List.{flat_map};
ghost use Rattle.sc_frames.specs.Stored.{stored, stored_sub};
ghost use Rattle.sc_frames.specs.Entries.{spelling_of_entry, spelling_of_sub, spelling_of_write};

use sc_record::{Entry, SubSlice, Write};

/// How many bytes the spelling of the entry has. `None` where that is 2^64 or more.
pub fn entry_len(entry: &Entry) -> Option<u64>
    ensures { MatchOption result (2 ^ 64 ≤ length (spelling_of_entry (stored entry.now))) (λ n. n ≡ length (spelling_of_entry (stored entry.now))) }
{
    match entry {
        Entry::Write(cell) => write_len(cell),
        Entry::Settled { .. } => Some(9),
        Entry::Committed => Some(1),
        Entry::Begun { subs, .. } => subs_len(subs.as_slice())?.checked_add(9),
        Entry::Switched { .. } | Entry::Failed { .. } | Entry::Dropped { .. } => Some(5),
        Entry::Down { .. } | Entry::Up { .. } | Entry::Led { .. } => Some(6),
    }
}

// How many bytes the spelling of the write has.
fn write_len(write: &Write) -> Option<u64>
    ensures { MatchOption result (2 ^ 64 ≤ length (spelling_of_write write.now.id write.now.version write.now.doc))
        (λ n. n ≡ length (spelling_of_write write.now.id write.now.version write.now.doc)) }
{
    let head = write.id().as_str().len() as u64 + 11;
    match write.doc_bytes() {
        Some(bytes) => (bytes.len() as u64).checked_add(head),
        None => Some(head),
    }
}

// How many bytes the spellings of the slices have.
fn subs_len(subs: &[SubSlice]) -> Option<u64>
    ensures { MatchOption result (2 ^ 64 ≤ length (flat_map spelling_of_sub (map stored_sub subs.now)))
        (λ n. n ≡ length (flat_map spelling_of_sub (map stored_sub subs.now))) }
{
    let mut sum: u64 = 0;
    for sub in subs {
        sum = sum.checked_add(sub.name.as_str().len() as u64 + 21)?;
    }
    Some(sum)
}
