//! All that a bucket shows, as one line.

ghost use Rattle.sc_bucket.specs.Sound.{IsSound};
ghost use Rattle.sc_keys.specs.Fresh.{IsFresh};

use crate::line::Line;
use sc_bucket::{Bucket, EntryRef};
use sc_cluster::Slice;
use sc_keys::Steps;
use sc_record::{Cell, CoreId, Entry, Id};
use sc_replica::Replica;
use sc_replicas::Standing;
use sc_snapshot::Rows;
use std::alloc::{AllocError, Global};
use std::marker::Brand;
use std::sync::ledger::{Blank, Ledger};

/// The phase, how many entries are owed and how many the journal may have; then the entries, the slices, the cores, what is in flight, the
/// searchers, and those that a switch will leave.
pub fn state_of(alloc: Global, bucket: &Bucket) -> Result<String, AllocError>
    requires { IsSound bucket.now }
{
    let mut line = Line::new(alloc);
    line.debug("", &bucket.phase);
    line.put(" ", &bucket.owed);
    line.put(" ", &bucket.limit);
    line.push(" |");
    put_entries(&mut line, bucket);
    put_slices(&mut line, bucket);
    put_cores(alloc, &mut line, bucket)?;
    put_flight(&mut line, bucket);
    put_searchers(&mut line, bucket.searchers.as_slice())?;
    if let Some(spares) = &bucket.spares {
        put_searchers(&mut line, spares.as_slice())?;
    }
    line.end()
}

/// A write: its id, and its version as it is shown.
fn put_cell(line: &mut Line, cell: &Cell) {
    line.push(" ");
    line.push(cell.id().as_str());
    line.put("=", &cell.shown());
}

/// The entries, where no write of them was let go.
fn put_entries(line: &mut Line, bucket: &Bucket)
    requires { IsSound bucket.now }
{
    let Some(entries) = bucket.journal.last(bucket.journal.len() as usize) else {
        return;
    };
    for entry in entries {
        match entry {
            EntryRef::Write(cell) => put_write(line, bucket, cell),
            EntryRef::Settled { place } => line.put(" settled:", &place),
            EntryRef::Committed => line.push(" committed"),
            EntryRef::Other(other) => put_other(line, other),
        }
    }
}

/// A write, and beside it its hash, whether it has no terms, and the version of the last write of its id.
fn put_write(line: &mut Line, bucket: &Bucket, cell: &Cell)
    requires { IsSound bucket.now }
{
    put_cell(line, cell);
    line.put(":", &cell.hash());
    line.put(":", &cell.terms().next().is_none());
    line.put(":", &last_shown(bucket, cell.id()));
}

/// The version of the last write of an id, as it is shown; 0 where there is none.
fn last_shown(bucket: &Bucket, id: &Id) -> i64
    requires { IsSound bucket.now }
{
    match bucket.read(id) {
        Some(last) => last.shown(),
        None => 0,
    }
}

/// An entry of a split with its slice, or of a core with its name.
fn put_other(line: &mut Line, entry: &Entry) {
    match entry {
        Entry::Begun { parent, .. } => line.put(" begun:", &parent.0),
        Entry::Switched { parent } => line.put(" switched:", &parent.0),
        Entry::Failed { parent } => line.put(" failed:", &parent.0),
        Entry::Dropped { slice } => line.put(" dropped:", &slice.0),
        Entry::Down { core } => put_core(line, " down:", *core),
        Entry::Up { core } => put_core(line, " up:", *core),
        Entry::Led { core } => put_core(line, " led:", *core),
        _ => {}
    }
}

/// A core's name.
fn put_core(line: &mut Line, before: &str, core: CoreId) {
    line.put(before, &core.slice.0);
    line.put("/", &core.replica);
}

fn put_slices(line: &mut Line, bucket: &Bucket) {
    for at in 0..bucket.map.len() {
        if let Some(slice) = bucket.map.get(at) {
            put_slice(line, slice);
        }
    }
}

fn put_slice(line: &mut Line, slice: &Slice) {
    line.put(" | ", &slice.id.0);
    line.debug(" ", &slice.state);
    line.put(" ", &slice.range.min);
    line.put("..", &slice.range.max);
    line.put(" ", &slice.replicas);
}

/// The cores by their seats.
fn put_cores(alloc: Global, line: &mut Line, bucket: &Bucket) -> Result<(), AllocError> {
    for at in 0..bucket.replicas.len() {
        put_replica(alloc, line, bucket, bucket.replicas.get(at))?;
    }
    line.push(" |");
    Ok(())
}

/// A core: its name, how it stands, its feed, and its cells.
fn put_replica(
    alloc: Global,
    line: &mut Line,
    bucket: &Bucket,
    replica: &Replica,
) -> Result<(), AllocError> {
    put_number(line, replica);
    put_mode(line, replica);
    put_feed(line, bucket, replica.core());
    put_cells(line, replica.cells().share(alloc)?.as_slice());
    Ok(())
}

/// Writes, as each is put.
fn put_cells(line: &mut Line, cells: &[Cell]) {
    for cell in cells {
        put_cell(line, cell);
    }
}

/// A core's name, and its number where that is another than its seat's.
fn put_number(line: &mut Line, replica: &Replica) {
    let core = replica.core();
    put_core(line, " | ", core);
    if replica.number() != core.replica {
        line.put(" core:", &replica.number());
    }
}

/// Whether a core is down, its mode, its clock, and how many writes it buffers.
fn put_mode(line: &mut Line, replica: &Replica) {
    let mark = if replica.is_down() { " down " } else { " " };
    line.debug(mark, &replica.mode());
    line.put(" ", &replica.clock());
    line.put(" ", &replica.buffered());
}

/// How many feeds there are, and the rows that the core's feed has left and those of them that it will take.
fn put_feed(line: &mut Line, bucket: &Bucket, core: CoreId) {
    line.put(" ", &bucket.feeds.len());
    if let Some(fed) = bucket.feeds.position(core) {
        let feed = bucket.feeds.get(fed);
        line.put(" ", &feed.rows_left());
        line.put(" ", &feed.pending());
    }
}

/// What was sent to cores and has not come yet.
fn put_flight(line: &mut Line, bucket: &Bucket) {
    for message in bucket.flight.as_slice() {
        put_core(line, " ", message.core);
        line.put("<", &message.place);
        put_cell(line, &message.write);
    }
}

/// The searchers; of each its slice, its range, how many entries its rows are after, and the rows.
fn put_searchers(line: &mut Line, searchers: &[Standing]) -> Result<(), AllocError> {
    for searcher in searchers {
        put_searcher(line, searcher)?;
    }
    line.push(" |");
    Ok(())
}

fn put_searcher(line: &mut Line, searcher: &Standing) -> Result<(), AllocError> {
    let rows = searcher.snapshot.share_rows()?;
    line.put(" | ", &searcher.slice.0);
    line.put(" ", &searcher.range.min);
    line.put("..", &searcher.range.max);
    put_rows::<Brand>(line, &rows, Blank::new(1));
    Ok(())
}

/// How many entries the rows are after, and the rows.
fn put_rows<L: Ledger>(line: &mut Line, rows: &Rows, blank: Blank)
    requires { IsFresh blank L.name L.parts }
{
    let mut steps = Steps::<L>::new(blank);
    line.put(" ", &rows.place());
    for at in 0..rows.rows() {
        if let Some(cell) = rows.row(at, &mut steps) {
            put_cell(line, cell);
        }
    }
}
