ghost use Rattle.std.specs.Prelude.{◌≡◌, Contains, map, All, IsTrue, IsFalse};
ghost use Rattle.sc_hash.specs.Range.{IsWithin};
ghost use Rattle.sc_record.specs.Writes.{Write};
ghost use Rattle.sc_replicas.specs.Searchers.{AreMoved, HasOwnRows};

use sc_hash::Range;
use sc_record::{List, SliceId};
use sc_snapshot::Snapshot;
use std::sync::Arc;

/// What serves the searches of an active slice: its range, and the committed rows of its leader; after a switch those of the parent's
/// leader, until the next commit.
#[derive(Drop)]
pub struct Standing {
    pub slice: SliceId,
    pub range: Range,
    pub snapshot: Arc<Snapshot>,
}

/// A share of a slice's searcher, and the place of the map after the slice.
#[derive(Drop)]
pub struct Searcher {
    pub next: usize,
    pub range: Range,
    pub snapshot: Arc<Snapshot>,
}

/// The searcher of the slice, which has one.
pub fn searcher_for(searchers: &List<Standing>, slice: SliceId) -> &Standing
    requires { Contains (map (λ (searcher : Standing). searcher.slice) searchers.now) slice }
    ensures there { Contains searchers.now result.now }
    ensures of_slice { result.now.slice ≡ slice }
{
    searchers
        .iter()
        .find(|searcher| searcher.slice == slice)
        .unwrap()
}

/// Whether the rows of each of these searchers are of its range alone, as far as the least and the greatest hash of them tell.
pub fn have_own_rows(searchers: &[Standing]) -> bool
    ensures { IsTrue result → All HasOwnRows searchers.now }
{
    for searcher in searchers {
        if !has_own_rows(searcher) {
            return false;
        }
    }
    true
}

// Whether those of this one are.
fn has_own_rows(searcher: &Standing) -> bool
    ensures { IsTrue result → HasOwnRows searcher.now }
{
    let _ = searcher.snapshot.rows(); // by it the proof knows that they are rows
    are_within(&searcher.snapshot, &searcher.range)
}

/// Whether the hashes of all rows are in the range, as far as the least and the greatest of them tell.
pub fn are_within(snapshot: &Snapshot, range: &Range) -> bool
    ensures { IsTrue result → All (λ (row : Write). IsWithin range.now.min range.now.max row.hash) snapshot.now.rows }
{
    range.min <= snapshot.least_hash() && snapshot.greatest_hash() <= range.max
}

/// Has each of these searchers show the same rows at another place, and takes no memory; none of them, where the snapshot of one has a
/// second owner, as while a search looks at it.
pub fn move_all(searchers: &mut [Standing], place: u64) -> bool
    ensures moved { IsTrue result → AreMoved place searchers.old searchers.new }
    ensures kept { IsFalse result → searchers.new ≡ searchers.old }
{
    match searchers.split_first_mut() {
        None => true,
        Some((first, rest)) => match Arc::get_mut(&mut first.snapshot) {
            None => false,
            Some(snapshot) => {
                let are_moved = move_all(rest, place);
                if are_moved {
                    snapshot.move_to(place);
                }
                are_moved
            }
        },
    }
}
