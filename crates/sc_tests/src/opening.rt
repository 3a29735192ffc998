//! `sc_opening`: how journals are closed that end anywhere, and which are of one collection.

use crate::support::{assert_line, assert_same, assert_text};
use sc_opening::{board_journal, changes_of, close, first_apart, longest};
use sc_record::{Entry, Id, List, SliceId, SubSlice, Text, Write};
use sc_seen::BoardEntry;
use std::alloc::{AllocError, Global};
use std::process::Abort;
use std::sync::Arc;
use std::test::Fail;

/// A deletion of one id.
fn write(alloc: Global) -> Result<Entry, Fail> {
    let write = Write::deletion(alloc, Id::new(alloc, "abc")?, 0, 1_048_576_000);
    Ok(Entry::Write(Arc::new(alloc, write)?))
}

/// A split of slice 1 into one slice with this id.
fn begun(alloc: Global, id: u32) -> Result<Entry, Fail> {
    let mut subs = List::new(alloc);
    subs.push(SubSlice {
        id: SliceId(id),
        name: Text::new(alloc, "shard1_0")?,
        min: i32::MIN,
        max: i32::MAX,
        replicas: 1,
        node: 1,
    })?;
    Ok(Entry::Begun {
        parent: SliceId(1),
        subs,
    })
}

/// The entry that a word stands for: a write, a commit, a split into slice 2 or 3, its end, the drop of slice 1, or a settled place.
fn entry_of(alloc: Global, word: &str) -> Result<Entry, Fail> {
    match word {
        "write" => write(alloc),
        "commit" => Ok(Entry::Committed),
        "split2" => begun(alloc, 2),
        "split3" => begun(alloc, 3),
        "switched" => Ok(Entry::Switched { parent: SliceId(1) }),
        "failed" => Ok(Entry::Failed { parent: SliceId(1) }),
        "dropped" => Ok(Entry::Dropped { slice: SliceId(1) }),
        "settled0" => Ok(Entry::Settled { place: 0 }),
        _ => Ok(Entry::Settled { place: 1 }),
    }
}

/// The journal whose words stand between spaces; none for no word.
fn journal_of(alloc: Global, words: &str) -> Result<List<Entry>, Fail> {
    let mut journal = List::new(alloc);
    if words.is_empty() {
        return Ok(journal);
    }
    for word in words.split(' ') {
        journal.push(entry_of(alloc, word)?)?;
    }
    Ok(journal)
}

/// The word of an entry.
fn word_of(alloc: Global, entry: &Entry) -> Result<String, AllocError> {
    match entry {
        Entry::Write(_) => String::from_str(alloc, "write"),
        Entry::Settled { place } => format!(in alloc; "settled{place}"),
        Entry::Committed => String::from_str(alloc, "commit"),
        Entry::Begun { subs, .. } => {
            let id = subs.as_slice().first().map(|sub| sub.id.0).unwrap_or(0);
            format!(in alloc; "split{id}")
        }
        Entry::Switched { .. } => String::from_str(alloc, "switched"),
        Entry::Failed { .. } => String::from_str(alloc, "failed"),
        Entry::Dropped { .. } => String::from_str(alloc, "dropped"),
        _ => String::from_str(alloc, "core"),
    }
}

/// The words of the entries, between spaces.
fn words_of(alloc: Global, entries: &[Entry]) -> Result<String, AllocError> {
    let mut words = String::new(alloc);
    for entry in entries {
        if !words.is_empty() {
            words.push_str(" ")?;
        }
        words.push_str(word_of(alloc, entry)?.as_str())?;
    }
    Ok(words)
}

/// Journals, and after a stroke a journal of another bucket that says what was done, and after another the first as it is closed.
fn closed_journals() -> &'static str {
    "||
write settled0|split2 switched|write settled0 split2 switched
write split2|split2 switched|write split2 switched settled0
write split2||write split2 failed settled0
write split2|split3 switched|write split2 failed split3 switched settled0
write split2|split2 failed|write split2 failed settled0
split2 failed split3|split3 switched dropped|split2 failed split3 switched dropped
write write settled0 commit|split2 switched dropped|write write settled0 commit split2 switched dropped settled1
split2 switched write|split2 switched dropped|split2 switched write dropped settled2
split2 switched dropped|split2 switched dropped|split2 switched dropped"
}

/// The journal before the first stroke is closed by what the second says was done, as the third; to close that again adds nothing.
fn assert_closed(rt: &impl Abort, alloc: Global, line: &str) -> Result<(), Fail> {
    let (journal, rest) = line.split_once("|").unwrap_or((line, ""));
    let (other, wanted) = rest.split_once("|").unwrap_or((rest, ""));
    let other = journal_of(alloc, other)?;
    let done = changes_of(alloc, other.as_slice())?;
    let once = close(alloc, journal_of(alloc, journal)?, done.as_slice())?;
    assert_line(rt, line, words_of(alloc, once.as_slice())?.as_str(), wanted);
    let twice = close(alloc, once, done.as_slice())?;
    assert_line(
        rt,
        line,
        words_of(alloc, twice.as_slice())?.as_str(),
        wanted,
    );
    Ok(())
}

#[test]
fn journals_are_closed_by_what_was_done(rt: HostRuntime) -> Result<(), Fail> {
    for line in closed_journals().lines() {
        assert_closed(&rt, rt.alloc(), line)?;
    }
    Ok(())
}

/// The number of the first of these journals that goes with no other, by what the longest says.
fn apart(alloc: Global, journals: &str) -> Result<Option<usize>, Fail> {
    let mut said = Vec::new(alloc);
    for words in journals.split('|') {
        let journal = journal_of(alloc, words)?;
        said.push(changes_of(alloc, journal.as_slice())?)?;
    }
    Ok(first_apart(said.as_slice(), longest(said.as_slice())))
}

#[test]
fn journals_of_another_collection_are_found(rt: HostRuntime) -> Result<(), Fail> {
    let alloc = rt.alloc();
    assert_same(&rt, apart(alloc, "")?, None);
    assert_same(&rt, apart(alloc, "split2|split2 switched|write")?, None);
    assert_same(
        &rt,
        apart(alloc, "split2 switched|split3 switched dropped")?,
        Some(0),
    );
    assert_same(
        &rt,
        apart(alloc, "split2 switched|split3 switched")?,
        Some(1),
    );
    assert_same(
        &rt,
        apart(alloc, "split2 switched dropped|dropped|split2 switched")?,
        Some(1),
    );
    Ok(())
}

/// The word of an entry of the board.
fn noted_word(alloc: Global, entry: &BoardEntry) -> Result<String, AllocError> {
    match entry {
        BoardEntry::Begun { plan } => {
            let id = plan
                .subs
                .as_slice()
                .first()
                .map(|sub| sub.id.0)
                .unwrap_or(0);
            format!(in alloc; "split{id}")
        }
        BoardEntry::Recovering { .. } => String::from_str(alloc, "recovering"),
        BoardEntry::Done { .. } => String::from_str(alloc, "done"),
        BoardEntry::Failed { .. } => String::from_str(alloc, "failed"),
        BoardEntry::Dropped { .. } => String::from_str(alloc, "dropped"),
        BoardEntry::Led { .. } => String::from_str(alloc, "led"),
    }
}

#[test]
fn the_board_notes_what_was_done(rt: HostRuntime) -> Result<(), Fail> {
    let alloc = rt.alloc();
    let journal = journal_of(alloc, "split2 failed split3 write switched dropped split2")?;
    let done = changes_of(alloc, journal.as_slice())?;
    assert_same(&rt, done.len(), 2);
    let mut noted = String::new(alloc);
    for entry in &board_journal(alloc, done.as_slice())? {
        noted.push_str(noted_word(alloc, entry)?.as_str())?;
        noted.push_str(" ")?;
    }
    assert_text(&rt, noted.as_str(), "split3 recovering done dropped ");
    Ok(())
}
