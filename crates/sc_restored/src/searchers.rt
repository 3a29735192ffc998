//! The searchers of a bucket that is made of its journal.

ghost use Rattle.std.specs.Prelude.{◌≡◌, ◌≤◌, ◌^◌, length, map, take, IfOk};
ghost use Rattle.std.specs.Arc.{arc_value};
ghost use Rattle.sc_journal.specs.Journal.{writes};
ghost use Rattle.sc_journal.specs.Committed.{commits, committed, last_commit};
ghost use Rattle.sc_restored.specs.Restored.{IsShownBy, AreShown};

use crate::cells::{cells_among, last_cells};
use sc_cluster::{ClusterMap, Slice, State};
use sc_record::{Cell, Entry, List};
use sc_replicas::Standing;
use sc_snapshot::Snapshot;
use std::alloc::{AllocError, Global};
use std::sync::Arc;

/// The searcher of each active slice, in the order of the map: of each id of its range the last write before the last entry that commits.
/// An error means out of memory.
pub(crate) fn searchers_of(
    alloc: Global,
    map: &ClusterMap,
    entries: &[Entry],
) -> Result<List<Standing>, AllocError>
    requires { length entries.now ≤ 2 ^ 24 }
    ensures { IfOk result (AreShown map.now (last_commit entries.now) (writes (committed entries.now))) }
{
    let place = place_of_commit(entries);
    let writes = cells_among(alloc, first_of(entries, place))?;
    let mut searchers = Vec::new(alloc);
    for at in 0..map.len() {
        let slice = map.get(at).unwrap();
        if slice.state == State::Active {
            searchers.push(searcher_of(alloc, slice, place as u64, writes.as_slice())?)?;
        }
    }
    searchers.shrink_to_fit();
    Ok(List::from_vec(searchers))
}

// The place of the last entry that commits, or 0.
fn place_of_commit(entries: &[Entry]) -> usize
    ensures { result ≡ last_commit entries.now }
{
    let mut last = 0;
    for (place, entry) in entries.iter().enumerate() {
        if commits(entry) {
            last = place;
        }
    }
    last
}

// The first n entries.
fn first_of(entries: &[Entry], n: usize) -> &[Entry]
    requires { n ≤ length entries.now }
    ensures { result.now ≡ take n entries.now }
{
    &entries[..n]
}

// The entry commits.
fn commits(entry: &Entry) -> bool
    ensures { result ≡ commits entry.now }
{
    matches!(entry, Entry::Committed | Entry::Begun { .. })
}

// The searcher of the slice, of the last of these writes of each id of its range, taken at the place. An error means out of memory.
fn searcher_of(
    alloc: Global,
    slice: &Slice,
    place: u64,
    writes: &[Cell],
) -> Result<Standing, AllocError>
    requires { length writes.now ≤ 2 ^ 24 }
    ensures { IfOk result (IsShownBy place (map arc_value writes.now) slice.now) }
{
    let rows = last_cells(alloc, writes, &slice.range)?;
    let snapshot = Snapshot::from_list(alloc, place, List::from_vec(rows))?;
    Ok(Standing {
        slice: slice.id,
        range: slice.range,
        snapshot: Arc::new(alloc, snapshot)?,
    })
}
