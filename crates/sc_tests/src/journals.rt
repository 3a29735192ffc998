//! `sc_bucket`: which writes a journal lets go.

ghost use Rattle.std.specs.Prelude.{◌≡◌, []};

use crate::support::assert_text;
use sc_bucket::Journal;
use sc_record::{Entry, Id, Write};
use std::alloc::{AllocError, Global};
use std::process::Abort;
use std::sync::Arc;
use std::test::Fail;

/// A deletion of one id.
fn write(alloc: Global) -> Result<Entry, Fail> {
    let write = Write::deletion(alloc, Id::new(alloc, "abc")?, 0, 1_048_576_000);
    Ok(Entry::Write(Arc::new(alloc, write)?))
}

/// The entry comes to the journal's end.
fn put(journal: &mut Journal, entry: Entry) -> Result<(), AllocError> {
    journal.reserve(1)?;
    journal.append(entry);
    Ok(())
}

/// A write, the entry that settles it, and one that commits both, come to the journal's end.
fn put_three(alloc: Global, journal: &mut Journal) -> Result<(), Fail> {
    put(journal, write(alloc)?)?;
    put(journal, Entry::Settled { place: 0 })?;
    put(journal, Entry::Committed)?;
    Ok(())
}

/// Whether the last n entries are lent.
fn said_of(journal: &Journal, n: usize) -> &'static str {
    if n as u64 > journal.len() {
        return "fewer";
    }
    match journal.last(n) {
        Some(_) => "lent",
        None => "gone",
    }
}

// What is committed is let go at once where no log file is asked.
#[test]
fn a_journal_alone_lets_go_what_is_committed(rt: HostRuntime) -> Result<(), Fail> {
    let alloc = rt.alloc();
    let mut journal = Journal::new(alloc);
    put(&mut journal, write(alloc)?)?;
    assert_text(&rt, said_of(&journal, 1), "lent");
    put_three(alloc, &mut journal)?;
    assert_text(&rt, said_of(&journal, 2), "lent");
    assert_text(&rt, said_of(&journal, 3), "gone");
    put(&mut journal, write(alloc)?)?;
    assert_text(&rt, said_of(&journal, 3), "lent");
    assert_text(&rt, said_of(&journal, 5), "gone");
    assert_text(&rt, said_of(&journal, 6), "fewer");
    Ok(())
}

// Where a log file is asked, it is let go once the file has it.
#[test]
fn a_journal_with_a_file_lets_go_what_the_file_has(rt: HostRuntime) -> Result<(), Fail> {
    let alloc = rt.alloc();
    let mut journal = Journal::new(alloc);
    journal.await_file();
    put_three(alloc, &mut journal)?;
    assert_text(&rt, said_of(&journal, 3), "lent");
    lets_go_by_file(&rt, alloc, &mut journal)
}

/// The file has no entry, one, and fewer than it had; then a write more comes, which the file has and no commit covers.
fn lets_go_by_file(rt: &impl Abort, alloc: Global, journal: &mut Journal) -> Result<(), Fail> {
    journal.note_filed(0);
    assert_text(rt, said_of(journal, 3), "lent");
    journal.note_filed(1);
    assert_text(rt, said_of(journal, 3), "gone");
    journal.note_filed(0);
    assert_text(rt, said_of(journal, 3), "gone");
    put(journal, write(alloc)?)?;
    journal.note_filed(4);
    assert_text(rt, said_of(journal, 3), "lent");
    Ok(())
}
