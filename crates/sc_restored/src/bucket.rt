//! A bucket that is made of its journal.

ghost use Rattle.std.specs.Prelude.{◌≡◌, ◌≤◌, [], ◌∷◌, ◌++◌, Some, IfOk, OnOk};
ghost use Rattle.sc_restored.specs.Restored.{MayRestore, IsRestored};

use crate::cells::cells_among;
use crate::map::map_after;
use crate::marks::marks_among;
use crate::owing::owed_by;
use crate::replicas::replicas_of;
use crate::searchers::searchers_of;
use crate::unsettled::unsettled_of;
use sc_bucket::{Bucket, Feeds, Flight, Journal, Phase};
use sc_cluster::ClusterMap;
use sc_record::{CloneIn, Entry, List};
use std::alloc::{AllocError, Global};

/// The bucket of this journal, whose first map is this, and whose journal may have `limit` entries. Its journal lets no write go until a
/// log file is said to have it, by `Journal::note_filed`. An error means out of memory.
pub fn restored(
    alloc: Global,
    map: &ClusterMap,
    limit: u64,
    journal: List<Entry>,
) -> Result<Bucket, AllocError>
    requires { MayRestore map.now limit journal }
    ensures { IfOk result (IsRestored map.now limit journal) }
{
    let _ = map.get(0); // by it the proof knows that it is a map
    let entries = journal.as_slice();
    let first = map.clone_in(alloc)?;
    let slices = map_after(alloc, map, entries)?;
    let unsettled = unsettled_of(alloc, entries)?;
    let among = marks_among(alloc, entries)?;
    let marks = among.as_slice();
    let cells = cells_among(alloc, entries)?;
    let writes = cells.as_slice();
    let replicas = replicas_of(alloc, &slices, marks, writes)?;
    let searchers = searchers_of(alloc, &slices, entries)?;
    let owed = owed_by(&slices, marks, unsettled.len() as u64);
    let kept = journal_of(alloc, journal, owed as usize)?;
    Ok(Bucket {
        first,
        map: slices,
        journal: kept,
        unsettled,
        replicas,
        flight: Flight::new(alloc),
        searchers,
        phase: Phase::Idle,
        feeds: Feeds::new(alloc),
        spares: None,
        owed,
        limit,
    })
}

// The journal of these entries, with room for `room` more, that lets no write go until a log file is said to have it. An error means out of
// memory.
fn journal_of(alloc: Global, entries: List<Entry>, room: usize) -> Result<Journal, AllocError>
    ensures entries { IfOk result (λ journal. journal.entries ≡ entries) }
    ensures room { IfOk result (λ journal. room ≤ journal.room) }
    ensures filed { IfOk result (λ journal. journal.filed ≡ Some 0) }
{
    let mut journal = Journal::new(alloc);
    journal.await_file();
    for entry in entries.into_vec() {
        put(&mut journal, entry)?;
    }
    journal.reserve(room)?;
    Ok(journal)
}

// Puts the entry at the end. An error means out of memory.
fn put(journal: &mut Journal, entry: Entry) -> Result<(), AllocError>
    ensures entries { OnOk result (journal.new.entries ≡ journal.old.entries ++ entry ∷ []) }
    ensures filed { OnOk result (journal.new.filed ≡ journal.old.filed) }
{
    journal.reserve(1)?;
    journal.append(entry);
    Ok(())
}
